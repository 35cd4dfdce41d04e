//! Stamps: a time in UTC as text, with the instant that it names.
ghost use Rattle.std.specs.Prelude.{◌≡◌, ◌↔◌, false, Some, IfOk};
ghost use Rattle.lost_spec.specs.Moment.{is_stamp, read_stamp};

use crate::ascii::to_text;
use crate::moment::Moment;
use crate::stamp_text::read_moment;
use lost_spec::faults::StampError;
use std::alloc::{AllocError, Global};
use std::marker::Model;

/// When a mapping was last updated, or expires (RFC 5222, sections 5.1 and 5.2): `YYYY-MM-DDThh:mm:ss`, perhaps a dot
/// and one to nine digits, then `Z`, of a day of the years 1 to 9999 and a second that exist (own spelling). The text
/// is kept as given, beside the instant that it names.
#[derive(Debug)]
pub struct Stamp {
    text: String,
    moment: Moment,
}

impl Drop for Stamp {
    fn drop(self) {
        let Stamp { text: _, moment: _ } = self;
    }
}

impl Model for Stamp {
    ghost use Rattle.std.specs.Prelude.{string_bytes};
    ghost use Rattle.lost_spec.specs.Moment as spec;
    ghost use Rattle.lost_mapping.specs.Stamp.{IsStampAt};

    ghost Value = { spec.Stamp };

    ghost view = { λ s. record { text = string_bytes s.text; moment = s.moment } };

    ghost invariant = { λ s. IsStampAt (string_bytes s.text) s.moment };
}

impl Stamp {
    ghost use Rattle.lost_mapping.specs.Stamp.{IsStampAt};

    /// Reads a stamp. A text that is none is refused as `Bad`.
    pub fn parse(alloc: Global, text: &[u8]) -> Result<Stamp, StampError>
        ensures value { IfOk result (λ s. read_stamp text.now ≡ Some s) }
        ensures bad { (result ≡ Err StampError.Bad) ↔ (is_stamp text.now ≡ false) }
    {
        let Some(moment) = read_moment(text) else {
            return Err(StampError::Bad);
        };
        Stamp::keep(alloc, text, moment).map_err(|_| StampError::Memory)
    }

    /// Whether `parse` reads this text as a stamp. It takes no memory.
    pub fn is_stamp(text: &[u8]) -> bool
        ensures { result ≡ is_stamp text.now }
    {
        read_moment(text).is_some()
    }

    fn keep(alloc: Global, text: &[u8], moment: Moment) -> Result<Stamp, AllocError>
        requires { IsStampAt text.now moment }
        ensures { IfOk result (λ s. s ≡ record { text = text.now; moment = moment }) }
    {
        Ok(Stamp {
            text: to_text(alloc, text)?,
            moment,
        })
    }

    /// The text, as it was given.
    pub fn text(&self) -> &str
        ensures text { result.now ≡ self.now.text }
        ensures read { read_stamp self.now.text ≡ Some self.now }
    {
        self.text.as_str()
    }

    /// The instant that the stamp names.
    pub fn moment(&self) -> Moment
        ensures { result ≡ self.now.moment }
    {
        self.moment
    }

    /// A copy.
    pub fn clone(&self) -> Result<Stamp, AllocError>
        ensures { IfOk result (λ s. s ≡ self.now) }
    {
        Ok(Stamp {
            text: self.text.clone()?,
            moment: self.moment,
        })
    }
}
