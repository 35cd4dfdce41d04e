//! Watches how a desk's lines are answered.
use lost_desk::Desk;
use lost_json::DeskReply;

/// Watches how a desk's lines are answered, to count them or to report the refused ones. It changes no reply.
pub trait DeskWitness {
    ghost use Rattle.lost_writing.specs.declared.desk_reply.DeskReply.{DeskReply};

    /// What it is after a reply, from what it was.
    ghost step: { Self → DeskReply → Self → Type 0 };

    /// Called for each line once it is answered and before the reply is written, with the line, if it was kept whole,
    /// the reply, and the desk as it is then.
    fn saw(&mut self, line: Option<&[u8]>, reply: DeskReply, desk: &Desk)
        ensures { step self.old reply self.new };
}

/// A witness that does nothing.
#[derive(Clone, Copy, PartialEq, Eq, Debug)]
pub struct NoWitness;

impl DeskWitness for NoWitness {
    ghost step = { λ old reply new. Unit {0} };

    fn saw(&mut self, _line: Option<&[u8]>, _reply: DeskReply, _desk: &Desk) {}
}
