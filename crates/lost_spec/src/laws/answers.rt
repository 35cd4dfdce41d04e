//! A law of all answers.

ghost use Rattle.lost_spec.specs.AnswerLaws.{ExpiredDoNotMatter};

/// The answer to any request over a book is the answer over that book without the mappings that are not live.
pub fn expired_do_not_matter()
    ensures { ExpiredDoNotMatter }
{}
