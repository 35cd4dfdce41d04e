//! The pieces of a mapping, as a hasher takes them.
ghost use Rattle.std.specs.Prelude.{[], ◌∷◌, ◌++◌};
ghost use Rattle.std.specs.Option.{option_copied};
ghost use Rattle.lost_digest.specs.Bytes.{count_bytes, coordinate_bytes, text_bytes, list_bytes, option_bytes, bool_bytes, pair_bytes};
ghost use Rattle.lost_digest.specs.Digest.{Takes};

use md5::{Digest, Md5};

/// A piece of a mapping, with bytes of its own.
pub(crate) trait Piece {
    ghost use Rattle.lost_spec.specs.Text.{Text};
    ghost use Rattle.lost_digest.specs.Digest.{Takes};

    // The bytes that stand for it.
    ghost bytes: { Self → Text };

    /// The hasher takes its bytes.
    fn feed(&self, hasher: &mut Md5)
        ensures { Takes hasher.old hasher.new (bytes self.now) };
}

#[tactic(auto, unfolding(crate::specs::Digest::Takes))]
/// The hasher takes these bytes.
pub(crate) fn feed_bytes(hasher: &mut Md5, bytes: &[u8])
    ensures { Takes hasher.old hasher.new bytes.now }
{
    hasher.update(bytes);
}

#[tactic(auto, unfolding(crate::specs::Bytes::count_bytes))]
/// The hasher takes a count.
pub(crate) fn feed_count(hasher: &mut Md5, count: usize)
    ensures { Takes hasher.old hasher.new (count_bytes count) }
{
    feed_bytes(hasher, &(count as u64).to_be_bytes());
}

#[tactic(auto, unfolding(crate::specs::Bytes::coordinate_bytes))]
/// The hasher takes a latitude or a longitude.
pub(crate) fn feed_coordinate(hasher: &mut Md5, coordinate: i32)
    ensures { Takes hasher.old hasher.new (coordinate_bytes coordinate) }
{
    feed_bytes(hasher, &coordinate.to_be_bytes());
}

#[tactic(auto, using(crate::proofs::Taking::then_takes), unfolding(crate::specs::Bytes::text_bytes))]
/// The hasher takes a text.
pub(crate) fn feed_text(hasher: &mut Md5, text: &str)
    ensures { Takes hasher.old hasher.new (text_bytes text.now) }
{
    feed_count(hasher, text.len());
    feed_bytes(hasher, text.as_bytes());
}

#[tactic(auto, using(crate::proofs::Taking::then_takes), unfolding(crate::specs::Bytes::pair_bytes))]
/// The hasher takes two texts.
pub(crate) fn feed_pair(hasher: &mut Md5, first: &str, second: &str)
    ensures { Takes hasher.old hasher.new (pair_bytes first.now second.now) }
{
    feed_text(hasher, first);
    feed_text(hasher, second);
}

#[tactic(auto, using(crate::proofs::Taking::then_takes))]
/// The hasher takes a text that may be absent.
pub(crate) fn feed_option(hasher: &mut Md5, text: Option<&str>)
    ensures { Takes hasher.old hasher.new (option_bytes (option_copied text.entry)) }
{
    match text {
        None => feed_bytes(hasher, &[0]),
        Some(text) => {
            feed_bytes(hasher, &[1]);
            feed_text(hasher, text);
        }
    }
}

#[tactic(auto, using(crate::proofs::Taking::then_takes), unfolding(crate::specs::Bytes::list_bytes))]
/// The hasher takes a list of pieces.
pub(crate) fn feed_list<T: Piece>(hasher: &mut Md5, items: &[T])
    ensures { Takes hasher.old hasher.new (list_bytes T.bytes items.now) }
{
    feed_count(hasher, items.len());
    for item in items {
        item.feed(hasher);
    }
}
