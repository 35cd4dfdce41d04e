//! Calls on books: what they hold, and each refusal but that of memory.
use crate::calls::unfit;
use crate::edits::edit_of;
use crate::kinds::Kind;
use lost_book::{Edit, EditError};
use lost_mapping::Moment;
use lost_spec::Coded;
use lost_urn::ServiceUrn;
use std::alloc::Global;
use std::io;
use test_parts::limits_of;

/// A book is asked at the first moment of this day, in days from 1970-01-01.
const DAY: i32 = 20_454;

/// The key of the question.
const KEY: &str = "B-1";

/// A book, and edits that it refuses.
#[derive(Drop)]
struct Refusing<K: Kind> {
    book: K,
    refused: Vec<Edit>,
}

/// Books, and what the questions are about.
#[derive(Drop)]
pub(crate) struct Refusals<K: Kind> {
    books: Vec<Refusing<K>>,
    service: ServiceUrn,
    moment: Moment,
}

impl<K: Kind> Refusals<K> {
    /// The books of a table. A line `limits` begins a book with these limits. A line `accepted` has an edit that it
    /// accepts, and a line `refused` one that it refuses after them.
    pub(crate) fn read(alloc: Global, table: &str) -> io::Result<Refusals<K>> {
        let Some(moment) = Moment::new(DAY, 0) else {
            return Err(unfit());
        };
        let Ok(service) = ServiceUrn::parse(alloc, b"urn:service:sos.police") else {
            return Err(unfit());
        };
        Ok(Refusals {
            books: refusing_books(alloc, table)?,
            service,
            moment,
        })
    }

    /// Makes the calls, and prints the answers.
    pub(crate) fn print<R: Print>(self, rt: &R) -> io::Result<()> {
        let Refusals {
            books,
            service,
            moment,
        } = self;
        for refusing in books.into_iter() {
            print_book(rt, refusing, &service, &moment)?;
        }
        Ok(())
    }
}

/// The books of a table.
fn refusing_books<K: Kind>(alloc: Global, table: &str) -> io::Result<Vec<Refusing<K>>> {
    let mut books = Vec::new(alloc);
    for part in table.split("limits ").skip(1) {
        books.push(refusing_book(alloc, part)?)?;
    }
    Ok(books)
}

/// The book of a part of the table.
fn refusing_book<K: Kind>(alloc: Global, part: &str) -> io::Result<Refusing<K>> {
    let (numbers, lines) = part.split_once('\n').unwrap_or((part, ""));
    let Some(limits) = limits_of(numbers) else {
        return Err(unfit());
    };
    let mut refusing = Refusing {
        book: K::empty(alloc, limits)?,
        refused: Vec::new(alloc),
    };
    add_edits(alloc, lines, &mut refusing.book, &mut refusing.refused)?;
    Ok(refusing)
}

/// Applies the accepted edits of these lines to a book, and adds the refused ones to a list.
fn add_edits<K: Kind>(
    alloc: Global,
    lines: &str,
    book: &mut K,
    refused: &mut Vec<Edit>,
) -> io::Result<()> {
    for line in lines.lines() {
        match line.split_once(' ') {
            Some(("accepted", edit)) => accept(alloc, book, edit)?,
            Some(("refused", edit)) => refused.push(edit_of(alloc, edit.as_bytes())?)?,
            _ => return Err(unfit()),
        }
    }
    Ok(())
}

/// Applies an edit, which must be accepted.
fn accept<K: Kind>(alloc: Global, book: &mut K, line: &str) -> io::Result<()> {
    match book.apply(edit_of(alloc, line.as_bytes())?) {
        Ok(()) => Ok(()),
        Err(_) => Err(unfit()),
    }
}

/// Prints what a book holds, how it refuses each edit, and what it holds then.
fn print_book<R: Print, K: Kind>(
    rt: &R,
    refusing: Refusing<K>,
    service: &ServiceUrn,
    moment: &Moment,
) -> io::Result<()> {
    let Refusing { mut book, refused } = refusing;
    print_held(rt, &book, service, moment)?;
    for edit in refused.into_iter() {
        print_refusal(rt, &mut book, edit)?;
    }
    print_held(rt, &book, service, moment)
}

/// Prints how a book refuses an edit.
fn print_refusal<R: Print, K: Kind>(rt: &R, book: &mut K, edit: Edit) -> io::Result<()> {
    let checked = code_of(book.check(&edit));
    let applied = code_of(book.apply(edit));
    println!(rt; "checked {checked}, applied {applied}")
}

/// The code of a refusal; 0 where there is none.
fn code_of(answer: Result<(), EditError>) -> u8 {
    match answer {
        Ok(()) => 0,
        Err(error) => error.code(),
    }
}

/// Prints what a book holds: the sourceId of the first mapping, and the position of the one with the key.
fn print_held<R: Print, K: Kind>(
    rt: &R,
    book: &K,
    service: &ServiceUrn,
    moment: &Moment,
) -> io::Result<()> {
    print_counts(rt, book, book.implemented(moment, service))?;
    print_first(rt, book)?;
    match book.by_key(moment, KEY) {
        Some(position) => println!(rt; ", {KEY} at {position}"),
        None => println!(rt; ", no {KEY}"),
    }
}

fn print_counts<R: Print, K: Kind>(rt: &R, book: &K, is_implemented: bool) -> io::Result<()> {
    print!(rt;
        "{}: edition {}, held {}, implemented {is_implemented}",
        K::NAME,
        book.edition(),
        book.len()
    )
}

fn print_first<R: Print, K: Kind>(rt: &R, book: &K) -> io::Result<()> {
    if book.len() > 0 {
        return print!(rt; ", first {}", book.mapping(0).identity().source_id());
    }
    Ok(())
}
