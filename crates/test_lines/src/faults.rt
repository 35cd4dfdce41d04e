//! The texts of all faults, and the answers where memory is refused.
use crate::telling::tell_text;
use lost_json::{DeskFault, DeskReply, ReadError, desk_answer, internal_error};
use lost_lines::Answer;
use lost_replay::ServeError;
use lost_spec::Coded;
use lost_spec::faults::{
    CivicError, EditError, GeoError, MappingError, RingError, SourceError, StampError, UrnError,
};
use std::alloc::{AllocError, Global};
use std::fmt::{Display, Write};
use std::io;

/// Prints a line for each fault, from the lowest crate on, and the variants of each enum in their order.
pub(crate) fn tell_faults<R: Print + AllocGlobal>(rt: &R) -> io::Result<()> {
    value_texts(rt.alloc()).tell(rt)?;
    edit_texts(rt.alloc()).tell(rt)?;
    line_texts(rt.alloc()).tell(rt)
}

/// Prints the answers where memory for an edit is refused and where a line could not be kept, and whether each counts
/// as a refusal of memory.
pub(crate) fn tell_marks<R: Print>(rt: &R) -> io::Result<()> {
    tell_answer(
        rt,
        &desk_answer(DeskReply::Refused(EditError::Memory.code())),
    )?;
    tell_answer(rt, &internal_error())
}

/// Prints an answer, and whether it counts as a refusal of memory.
fn tell_answer<R: Print>(rt: &R, answer: &Answer) -> io::Result<()> {
    tell_text(rt, answer.bytes())?;
    println!(rt; "counts {}", u8::from(answer.is_internal_error))
}

/// Lines of texts, until memory is refused for one of them.
#[derive(Drop)]
struct Texts {
    text: String,
    is_refused: bool,
}

impl Texts {
    /// No lines.
    fn new(alloc: Global) -> Texts {
        Texts {
            text: String::new(alloc),
            is_refused: false,
        }
    }

    /// Adds a line for each fault of a list.
    fn add<F: Display + Copy>(&mut self, faults: &[F]) {
        for fault in faults {
            if write!(self.text, "{}\n", *fault).is_err() {
                self.is_refused = true;
            }
        }
    }

    /// Prints the lines, unless memory was refused.
    fn tell<R: Print>(&self, rt: &R) -> io::Result<()> {
        if self.is_refused {
            return Err(AllocError.into());
        }
        print!(rt; "{}", self.text)
    }
}

/// The texts of the refusals of texts, points, rings and pairs.
fn value_texts(alloc: Global) -> Texts {
    let mut texts = Texts::new(alloc);
    texts.add(&[
        UrnError::Prefix,
        UrnError::EmptyLabel,
        UrnError::BadCharacter,
        UrnError::HyphenAtEnd,
        UrnError::LabelTooLong,
        UrnError::TooManyLabels,
        UrnError::Memory,
    ]);
    texts.add(&[GeoError::Latitude, GeoError::Longitude]);
    texts.add(&[
        RingError::TooShort,
        RingError::NotClosed,
        RingError::TooLong,
    ]);
    texts.add(&[
        CivicError::NoKnownElement,
        CivicError::Repeated,
        CivicError::TooLong,
        CivicError::Memory,
        CivicError::UnknownElement,
    ]);
    texts.add(&[SourceError::Bad, SourceError::Memory]);
    texts.add(&[StampError::Bad, StampError::Memory]);
    texts
}

/// The texts of the refusals of mappings and edits.
fn edit_texts(alloc: Global) -> Texts {
    let mut texts = Texts::new(alloc);
    texts.add(&[
        MappingError::BadSource,
        MappingError::BadSourceId,
        MappingError::BadStamp,
        MappingError::BadExpires,
        MappingError::BadService,
        MappingError::BadUri,
        MappingError::BadNumber,
        MappingError::BadRegion,
        MappingError::RegionMissing,
        MappingError::TooLarge,
        MappingError::BadKey,
        MappingError::Memory,
    ]);
    texts.add(&[
        EditError::IdentityHeld,
        EditError::IdentityUnknown,
        EditError::NotNewer,
        EditError::KeyHeld,
        EditError::KeyUnchanged,
        EditError::Full,
        EditError::EditsSpent,
        EditError::Memory,
        EditError::Withdrawn,
        EditError::TracesFull,
    ]);
    texts
}

/// The texts of the faults of lines and streams.
fn line_texts(alloc: Global) -> Texts {
    let mut texts = Texts::new(alloc);
    texts.add(&[ReadError::BadRequest, ReadError::Memory]);
    let refused = DeskFault::Mapping(MappingError::BadKey);
    texts.add(&[DeskFault::BadLine, refused]);
    texts.add(&[
        ServeError::Read,
        ServeError::Write,
        ServeError::TurnsSpent,
        ServeError::Memory,
    ]);
    texts
}
