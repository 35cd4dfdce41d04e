//! The text of a mapping by reference, as it is kept.
ghost use Rattle.std.specs.Prelude.{◌≡◌};
ghost use Rattle.lost_mapping.specs.ReferenceText.{bytes_of};

use arrayvec::ArrayVec;

/// The most bytes of a text that lies in the value.
const SHORT: usize = 256;

/// A text: a short one, as most mappings have, lies in the value itself, and so beside what a search looks at.
#[derive(Drop)]
pub(crate) enum ReferenceText {
    /// A text of at most 256 bytes.
    Short(ArrayVec<u8, SHORT>),
    /// A longer one.
    Long(Vec<u8>),
}

impl ReferenceText {
    /// This text.
    pub(crate) fn of(text: Vec<u8>) -> ReferenceText
        ensures { bytes_of result ≡ text.items }
    {
        let mut short = ArrayVec::new();
        if short.try_extend_from_slice(text.as_slice()).is_ok() {
            return ReferenceText::Short(short);
        }
        ReferenceText::Long(text)
    }

    /// The text.
    pub(crate) fn as_slice(&self) -> &[u8]
        ensures { result.now ≡ bytes_of self.now }
    {
        match self {
            ReferenceText::Short(text) => text.as_slice(),
            ReferenceText::Long(text) => text.as_slice(),
        }
    }
}
