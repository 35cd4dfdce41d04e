//! Calls of lost_book, and the questions of lost_query, on one book after another.
use crate::case_error::CaseError;
use crate::descriptions::mapping;
use crate::fields::Fields;
use crate::gathered::Gathered;
use crate::place_cases::place;
use crate::stamp_cases::{identity, identity_in, stamp};
use crate::urn_cases::service;
use crate::words::{owned, refused, yes_or_no};
use lost_book::{Book, Edit, EditError, Limits, Register};
use lost_mapping::{Identity, Mapping, Moment};
use lost_query::Holdings;
use lost_spec::Coded;
use std::alloc::Global;

/// The book that the cases of a table change and ask, and its copy.
#[derive(Drop)]
pub(crate) struct Shelf {
    book: Option<Book>,
    copy: Option<Book>,
}

impl Shelf {
    /// No book yet.
    pub(crate) fn new() -> Shelf {
        Shelf {
            book: None,
            copy: None,
        }
    }

    /// The book.
    pub(crate) fn book(&self) -> Result<&Book, CaseError> {
        match &self.book {
            Some(book) => Ok(book),
            None => Err(CaseError::NoCase),
        }
    }

    /// The result of a call that makes, changes or copies the book.
    pub(crate) fn said(
        &mut self,
        alloc: Global,
        call: &str,
        fields: &Fields,
    ) -> Result<String, CaseError> {
        match call {
            "book limits" | "book limits with traces" | "book widest limits" => {
                shown_limits(alloc, call, fields)
            }
            "book new" | "book new with traces" => self.begin(alloc, call, fields),
            "book copy" => self.keep_copy(alloc),
            "book turn to the copy" => self.turn(alloc),
            "book publish many" => self.publish_many(alloc, fields),
            "book publish" | "book replace" | "book withdraw" => self.change(alloc, call, fields),
            _ => asked(alloc, self.book()?, call, fields),
        }
    }

    /// Begins a book.
    fn begin(&mut self, alloc: Global, call: &str, fields: &Fields) -> Result<String, CaseError> {
        let Some(limits) = limits(call, fields)? else {
            return Err(CaseError::NoCase);
        };
        self.book = Some(Book::new(alloc, limits)?);
        owned(alloc, "new")
    }

    /// Copies the book.
    fn keep_copy(&mut self, alloc: Global) -> Result<String, CaseError> {
        self.copy = Some(self.book()?.clone()?);
        owned(alloc, "copied")
    }

    /// Makes the copy the book.
    fn turn(&mut self, alloc: Global) -> Result<String, CaseError> {
        self.book = self.copy.take();
        owned(alloc, "turned")
    }

    /// Applies an edit to the book.
    fn change(&mut self, alloc: Global, call: &str, fields: &Fields) -> Result<String, CaseError> {
        let edit = edit(alloc, call, fields)?;
        match &mut self.book {
            Some(book) => apply(alloc, book, &edit),
            None => Err(CaseError::NoCase),
        }
    }

    /// Publishes the mapping of a description under so many sourceIds.
    fn publish_many(&mut self, alloc: Global, fields: &Fields) -> Result<String, CaseError> {
        let (count, description) = (fields.count(1)?, fields.text(2)?);
        match &mut self.book {
            Some(book) => publish_numbered(alloc, book, count, description),
            None => Err(CaseError::NoCase),
        }
    }
}

/// Publishes the mapping of a description under so many sourceIds.
fn publish_numbered(
    alloc: Global,
    book: &mut Book,
    count: u64,
    description: &str,
) -> Result<String, CaseError> {
    for number in 0..count {
        let published = book.apply(Edit::Publish(numbered(alloc, number, description)?));
        if published.is_err() {
            return outcome(alloc, published);
        }
    }
    owned(alloc, "accepted")
}

/// The mapping of a description with a number in front.
fn numbered(alloc: Global, number: u64, description: &str) -> Result<Mapping, CaseError> {
    let described = format!(in alloc; "{number}{description}")?;
    mapping(alloc, described.as_str())
}

/// The limits of a call: the widest, or those in its first two or three fields.
fn limits(call: &str, fields: &Fields) -> Result<Option<Limits>, CaseError> {
    match call {
        "book widest limits" => Ok(Some(Limits::widest())),
        "book limits with traces" | "book new with traces" => limits_with_traces(fields),
        _ => two_limits(fields),
    }
}

fn two_limits(fields: &Fields) -> Result<Option<Limits>, CaseError> {
    Ok(Limits::new(limit(fields, 1)?, limit(fields, 2)?))
}

fn limits_with_traces(fields: &Fields) -> Result<Option<Limits>, CaseError> {
    match two_limits(fields)? {
        Some(limits) => Ok(limits.with_traces(limit(fields, 3)?)),
        None => Ok(None),
    }
}

fn limit(fields: &Fields, position: usize) -> Result<u32, CaseError> {
    match u32::try_from(fields.count(position)?) {
        Ok(limit) => Ok(limit),
        Err(_) => Err(CaseError::NoCase),
    }
}

fn shown_limits(alloc: Global, call: &str, fields: &Fields) -> Result<String, CaseError> {
    match limits(call, fields)? {
        Some(limits) => {
            let (mappings, edits) = (limits.mappings(), limits.edits());
            let traces = limits.traces();
            Ok(format!(in alloc; "{mappings} {edits} {traces}")?)
        }
        None => owned(alloc, "none"),
    }
}

/// The edit of a case: a description, or the sourceId and the stamp of a withdrawal.
fn edit(alloc: Global, call: &str, fields: &Fields) -> Result<Edit, CaseError> {
    let text = fields.text(1)?;
    match call {
        "book publish" => Ok(Edit::Publish(mapping(alloc, text)?)),
        "book replace" => Ok(Edit::Replace(mapping(alloc, text)?)),
        _ => withdrawal(alloc, text, fields),
    }
}

fn withdrawal(alloc: Global, source_id: &str, fields: &Fields) -> Result<Edit, CaseError> {
    let stamp = stamp(alloc, fields.bytes(2)?)?;
    Ok(Edit::Withdraw(identity(alloc, "map.example", source_id)?, stamp))
}

/// Applies an edit, and once more if memory ran out. A refusal must leave the book as it was, and `check` must agree.
fn apply(alloc: Global, book: &mut Book, edit: &Edit) -> Result<String, CaseError> {
    let before = kept(alloc, book, edit)?;
    let checked = book.check(edit);
    let mut applied = book.apply(edit.clone()?);
    if applied.is_err() && kept(alloc, book, edit)? != before {
        return owned(alloc, "refused, and the book changed");
    }
    if applied == Err(EditError::Memory) {
        applied = book.apply(edit.clone()?);
    }
    judged(alloc, applied, checked)
}

/// The outcome of an edit, if `check` said the same.
fn judged(
    alloc: Global,
    applied: Result<(), EditError>,
    checked: Result<(), EditError>,
) -> Result<String, CaseError> {
    if applied == checked || applied == Err(EditError::Memory) {
        outcome(alloc, applied)
    } else {
        owned(alloc, "at odds with the check")
    }
}

/// The outcome of an edit.
fn outcome(alloc: Global, applied: Result<(), EditError>) -> Result<String, CaseError> {
    match applied {
        Ok(()) => owned(alloc, "accepted"),
        Err(EditError::Memory) => Err(CaseError::Memory),
        Err(refusal) => refused(alloc, refusal.code()),
    }
}

/// The mappings held, how many withdrawn identities are remembered, and the withdrawal stamp of an edit's identity.
fn kept(alloc: Global, book: &Book, edit: &Edit) -> Result<String, CaseError> {
    let mut text = Gathered::new(alloc);
    add_held(&mut text, book);
    text.add(" ");
    text.add_number(Register::trace_count(book) as u64);
    text.add(" ");
    add_withdrawn(&mut text, book, edited(edit));
    text.done()
}

/// The identity of an edit.
fn edited(edit: &Edit) -> &Identity {
    match edit {
        Edit::Publish(mapping) | Edit::Replace(mapping) => mapping.identity(),
        Edit::Withdraw(identity, _) => identity,
    }
}

/// Adds the remembered stamp of an identity's withdrawal.
fn add_withdrawn(text: &mut Gathered, book: &Book, identity: &Identity) {
    match Register::withdrawn(book, identity) {
        Some(stamp) => text.add(stamp.text()),
        None => text.add("none"),
    }
}

/// Adds the edition, the length, and each mapping's sourceId, key and stamp.
fn add_held(text: &mut Gathered, book: &Book) {
    text.add("edition ");
    text.add_number(book.edition());
    text.add(", ");
    text.add_number(book.len() as u64);
    text.add(" held:");
    for position in 0..book.len() {
        add_mapping(text, book.mapping(position));
    }
}

/// Adds the sourceId, the key and the stamp of a mapping.
fn add_mapping(text: &mut Gathered, mapping: &Mapping) {
    let key = mapping.key().unwrap_or("-");
    text.add_all(&[" ", mapping.identity().source_id(), " ", key]);
    text.add_all(&[" ", mapping.stamp().text()]);
}

/// The answer of the book.
fn asked(alloc: Global, book: &Book, call: &str, fields: &Fields) -> Result<String, CaseError> {
    match call {
        "book held" => held(alloc, book),
        "book traces" => trace_count(alloc, book),
        "book withdrawn" => withdrawn(alloc, book, fields),
        _ => asked_at(alloc, book, call, fields),
    }
}

fn held(alloc: Global, book: &Book) -> Result<String, CaseError> {
    let mut text = Gathered::new(alloc);
    add_held(&mut text, book);
    text.done()
}

fn trace_count(alloc: Global, book: &Book) -> Result<String, CaseError> {
    Ok(format!(in alloc; "{}", Register::trace_count(book))?)
}

fn withdrawn(alloc: Global, book: &Book, fields: &Fields) -> Result<String, CaseError> {
    let identity = identity_in(alloc, fields, 1)?;
    let mut text = Gathered::new(alloc);
    add_withdrawn(&mut text, book, &identity);
    text.done()
}

/// The answer of the book at a moment.
fn asked_at(alloc: Global, book: &Book, call: &str, fields: &Fields) -> Result<String, CaseError> {
    let moment = stamp(alloc, fields.bytes(1)?)?.moment();
    let text = fields.text(2)?;
    match call {
        "book key" => shown_position(alloc, Holdings::by_key(book, &moment, text)),
        "book implemented" => implemented(alloc, book, &moment, text),
        "book holding" => holding(alloc, book, &moment, text),
        "book at" => at(alloc, book, &moment, fields),
        "book defaults" => defaults(alloc, book, &moment, text),
        "book of" => of_service(alloc, book, &moment, text),
        _ => Err(CaseError::NoCase),
    }
}

fn implemented(
    alloc: Global,
    book: &Book,
    moment: &Moment,
    text: &str,
) -> Result<String, CaseError> {
    let service = service(alloc, text.as_bytes())?;
    owned(
        alloc,
        yes_or_no(Holdings::implemented(book, moment, &service)),
    )
}

fn holding(alloc: Global, book: &Book, moment: &Moment, text: &str) -> Result<String, CaseError> {
    let positions = Holdings::holding(book, moment, &place(alloc, text)?)?;
    ids(alloc, book, positions.as_slice())
}

fn at(alloc: Global, book: &Book, moment: &Moment, fields: &Fields) -> Result<String, CaseError> {
    let place = place(alloc, fields.text(2)?)?;
    let service = service(alloc, fields.bytes(3)?)?;
    let positions = Holdings::at(book, moment, &place, &service)?;
    ids(alloc, book, positions.as_slice())
}

fn defaults(alloc: Global, book: &Book, moment: &Moment, text: &str) -> Result<String, CaseError> {
    let positions = Holdings::defaults(book, moment, &service(alloc, text.as_bytes())?)?;
    ids(alloc, book, positions.as_slice())
}

fn of_service(
    alloc: Global,
    book: &Book,
    moment: &Moment,
    text: &str,
) -> Result<String, CaseError> {
    let positions = Holdings::of_service(book, moment, &service(alloc, text.as_bytes())?)?;
    ids(alloc, book, positions.as_slice())
}

fn shown_position(alloc: Global, position: Option<usize>) -> Result<String, CaseError> {
    match position {
        Some(position) => Ok(format!(in alloc; "{position}")?),
        None => owned(alloc, "none"),
    }
}

/// The sourceIds of the mappings at these positions, or a dash where there is none.
fn ids(alloc: Global, book: &Book, positions: &[usize]) -> Result<String, CaseError> {
    if positions.is_empty() {
        return owned(alloc, "-");
    }
    let mut text = Gathered::new(alloc);
    for position in positions {
        if *position < book.len() {
            text.add(book.mapping(*position).identity().source_id());
        }
    }
    text.done()
}
