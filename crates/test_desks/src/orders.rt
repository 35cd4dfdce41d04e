//! The answers of a desk to its lines, as they are printed. If memory is refused for a line, the answer says so.
ghost use Rattle.std.specs.Prelude.{◌≡◌, IfOk, IfSome};

use lost_book::{Edit, EditError};
use lost_desk::{CommitError, Desk, Readers, open_desk};
use lost_json::{DeskFault, DeskLine, read_desk};
use lost_mapping::MappingError;
use lost_spec::Coded;
use std::alloc::AllocError;
use std::io;
use std::sync::Wait;
use test_parts::limits;

/// The line that is asked: a point in the ring of the mapping `A`.
pub(crate) const QUESTION: &[u8] =
    br#"{"findService":{"location":[{"id":"p","pos":[5000000,5000000],"profile":"geodetic-2d"}],"service":"urn:service:sos.police"}}"#;

/// A desk with so many readers. If it is refused, prints that and asks for it again, once.
pub(crate) fn opened<R: Wait + Print + AllocGlobal>(
    rt: &R,
    readers: u32,
) -> io::Result<Option<(Desk, Readers)>>
    ensures { IfOk result (λ found. IfSome found (λ parts. parts.1.each.opening ≡ parts.0.opening)) }
{
    match opened_at_once(rt, readers) {
        Ok(Some(parts)) => Ok(Some(parts)),
        Ok(None) => opened_at_once(rt, readers),
        Err(error) => Err(error),
    }
}

/// A desk with so many readers. If it is refused, prints that.
fn opened_at_once<R: Wait + Print + AllocGlobal>(
    rt: &R,
    readers: u32,
) -> io::Result<Option<(Desk, Readers)>>
    ensures { IfOk result (λ found. IfSome found (λ parts. parts.1.each.opening ≡ parts.0.opening)) }
{
    match open_desk(rt, rt.alloc(), limits(), readers) {
        Ok(parts) => Ok(Some(parts)),
        Err(error) => {
            println!(rt; "open: {}", error.code())?;
            Ok(None)
        }
    }
}

/// Has the desk do what a line orders, and prints the answer; false where the line is a question.
pub(crate) fn is_ordered<R: Wait + Print + AllocGlobal>(
    rt: &R,
    desk: &mut Desk,
    line: &str,
) -> io::Result<bool>
    ensures { desk.new.opening ≡ desk.old.opening }
{
    match read_desk(rt.alloc(), line.as_bytes()) {
        Ok(Some(order)) => is_printed(order_desk(rt, desk, order)),
        Ok(None) => Ok(false),
        Err(fault) => is_printed(say_fault(rt, fault)),
    }
}

/// True, unless it could not be printed.
fn is_printed(printed: io::Result<()>) -> io::Result<bool> {
    match printed {
        Ok(()) => Ok(true),
        Err(error) => Err(error),
    }
}

/// Prints why a line could not be read.
fn say_fault<R: Print>(rt: &R, fault: DeskFault) -> io::Result<()> {
    match fault {
        DeskFault::Mapping(MappingError::Memory) => say_memory(rt),
        _ => println!(rt; "no desk line"),
    }
}

/// Gives the desk an order, and prints the answer.
fn order_desk<R: Wait + Print>(rt: &R, desk: &mut Desk, order: DeskLine) -> io::Result<()>
    ensures { desk.new.opening ≡ desk.old.opening }
{
    match order {
        DeskLine::Edit(edit) => stage(rt, desk, edit),
        DeskLine::Commit => commit(rt, desk),
    }
}

/// Has the desk stage an edit, and prints the answer.
fn stage<R: Print>(rt: &R, desk: &mut Desk, edit: Edit) -> io::Result<()>
    ensures { desk.new.opening ≡ desk.old.opening }
{
    match desk.stage(edit) {
        Ok(pending) => println!(rt; "staged, pending {pending}"),
        Err(EditError::Memory) => say_memory(rt),
        Err(error) => println!(rt; "refused, code {}", error.code()),
    }
}

/// Has the desk commit, and prints the answer.
pub(crate) fn commit<R: Wait + Print>(rt: &R, desk: &mut Desk) -> io::Result<()>
    ensures { desk.new.opening ≡ desk.old.opening }
{
    match desk.commit(rt) {
        Ok(edition) => println!(rt; "committed, edition {edition}"),
        Err(CommitError::Memory) => say_memory(rt),
    }
}

/// Prints a reply, which ends with byte 10.
pub(crate) fn print_reply<R: Print>(rt: &R, reply: Result<Vec<u8>, AllocError>) -> io::Result<()> {
    let Ok(reply) = reply else {
        return say_memory(rt);
    };
    match std::str::from_utf8(reply.as_slice()) {
        Ok(text) => print!(rt; "{text}"),
        Err(_) => Ok(()),
    }
}

/// Prints that memory was refused.
pub(crate) fn say_memory<R: Print>(rt: &R) -> io::Result<()> {
    println!(rt; "memory ran out")
}
