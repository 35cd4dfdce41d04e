//! Desk lines.
ghost use Rattle.std.specs.Prelude.{◌≡◌, ◌≢◌, true, false, None, Some, Ok, Err, option_map, unwrap_or, IfOk, IfErr, IfSome, OnOk};
ghost use Rattle.std.specs.Result.{result_err};
ghost use Rattle.serde_json.specs.Find.{as_object};
ghost use Rattle.serde_json.specs.View.{view, members_view};
ghost use Rattle.lost_spec.specs.Book as book;
ghost use Rattle.lost_spec.specs.Mapping as spec;
ghost use Rattle.lost_spec.specs.Moment.{is_stamp, stamp_of};
ghost use Rattle.lost_spec.specs.Text.{lowered};
ghost use Rattle.lost_reading.specs.Desk.{Stage, parts_of_members, mapping_order, withdrawal_fault, withdrawal, withdrawal_order, is_desk_name, order_named, order_of_member, order_in, desk_line};
ghost use Rattle.lost_reading.specs.DeskLines.{order_of, fault_of, GivesOrder, GivesLine};

use crate::checks::check_members;
use crate::known_members::read_tree;
use crate::parts::read_parts;
use crate::reading::{only_member, text_member};
use crate::request::ReadError;
use lost_mapping::{Edit, Identity, Mapping, Stamp};
use lost_spec::Coded;
use lost_spec::faults::{MappingError, StampError};
use serde_json::{Map, Value};
use std::alloc::Global;
use thiserror::Error;

/// What a desk line orders.
#[derive(Drop)]
pub enum DeskLine {
    /// An edit to stage.
    Edit(Edit),
    /// A commit of all that is staged.
    Commit,
}

/// Why a desk line is refused.
#[derive(Clone, Copy, PartialEq, Eq, Debug, Error)]
pub enum DeskFault {
    /// A member is missing or of another kind.
    #[error("a member is missing or of another kind")]
    BadLine,
    /// The mapping or the withdrawal is refused, or memory ran out.
    #[error("the mapping or the withdrawal is refused")]
    Mapping(MappingError),
}

/// The number of the refusal on the desk's lines: 1 to 12, and 20 if memory ran out.
impl Coded for DeskFault {
    ghost use Rattle.lost_reading.specs.Desk.{desk_fault_code};

    ghost code_of = { desk_fault_code };

    fn code(self) -> u8 {
        match self {
            DeskFault::BadLine => 1,
            DeskFault::Mapping(fault) => fault.code(),
        }
    }
}

/// Reads a desk line (own format): an object with exactly one member, named `publish`, `replace`, `withdraw` or
/// `commit`. `None` if the line is no desk line.
///
/// # Errors
///
/// [`DeskFault::BadLine`] if a member is missing or of another kind. Then the first refusal of the mapping, in the
/// order of the codes, or of the withdrawal. A memory refusal may replace any other answer.
pub fn read_desk(alloc: Global, line: &[u8]) -> Result<Option<DeskLine>, DeskFault>
    ensures other { result ≡ Ok None → desk_line line.now ≡ None }
    ensures order { IfOk result (λ found. IfSome found (λ order. desk_line line.now ≡ Some (Ok (order_of order)))) }
    ensures refused { IfErr result (λ fault.
        fault ≢ DeskFault.Mapping MappingError.Memory → desk_line line.now ≡ Some (Err fault)) }
{
    match read_tree(alloc, line) {
        Ok(tree) => read_tree_order(alloc, &tree),
        Err(ReadError::BadRequest) => Ok(None),
        Err(ReadError::Memory) => Err(DeskFault::Mapping(MappingError::Memory)),
    }
}

impl From<ReadError> for DeskFault {
    ghost from_gives = { λ error fault. fault ≡ fault_of error };

    fn from(error: ReadError) -> DeskFault {
        match error {
            ReadError::BadRequest => DeskFault::BadLine,
            ReadError::Memory => DeskFault::Mapping(MappingError::Memory),
        }
    }
}

/// The order of a tree: an object with exactly one member, whose name is that of a desk line.
fn read_tree_order(alloc: Global, tree: &Value) -> Result<Option<DeskLine>, DeskFault>
    ensures { GivesLine result (order_in (view tree.now)) }
{
    match only_member(tree) {
        Some((name, value)) => read_member(alloc, name, value),
        None => Ok(None),
    }
}

fn read_member(alloc: Global, name: &str, value: &Value) -> Result<Option<DeskLine>, DeskFault>
    ensures { GivesLine result (order_of_member (name.now, view value.now)) }
{
    if is_desk_name(name) {
        Ok(Some(read_order(alloc, name, value)?))
    } else {
        Ok(None)
    }
}

pub(crate) fn is_desk_name(name: &str) -> bool
    ensures { result ≡ is_desk_name name.now }
{
    "publish" == name || "replace" == name || "withdraw" == name || "commit" == name
}

/// The order of this name. A value that is no object is a bad line. A refusal comes even if memory is short.
pub(crate) fn read_order(alloc: Global, name: &str, value: &Value) -> Result<DeskLine, DeskFault>
    ensures given { GivesOrder result (unwrap_or (option_map (order_named name.now) (as_object (view value.now))) (Err DeskFault.BadLine)) }
    ensures checked_first { IfErr (unwrap_or (option_map (order_named name.now) (as_object (view value.now))) (Err DeskFault.BadLine)) (λ fault. result ≡ Err fault) }
{
    match value.as_object() {
        Some(members) => read_named_order(alloc, name, members),
        None => Err(DeskFault::BadLine),
    }
}

/// The order of this name, by the members of its value. A refusal comes even if memory is short.
fn read_named_order(
    alloc: Global,
    name: &str,
    members: &Map<String, Value>,
) -> Result<DeskLine, DeskFault>
    ensures given { GivesOrder result (order_named name.now (members_view members.now.entries)) }
    ensures checked_first { IfErr (order_named name.now (members_view members.now.entries)) (λ fault. result ≡ Err fault) }
{
    if "publish" == name {
        Ok(DeskLine::Edit(Edit::Publish(read_mapping(alloc, members)?)))
    } else if "replace" == name {
        Ok(DeskLine::Edit(Edit::Replace(read_mapping(alloc, members)?)))
    } else if "withdraw" == name {
        read_withdrawal(alloc, members)
    } else {
        Ok(DeskLine::Commit)
    }
}

/// The mapping of an object, or the first refusal of its parts. A refusal comes even if memory is short: all checks
/// read the tree before anything is copied.
fn read_mapping(alloc: Global, members: &Map<String, Value>) -> Result<Mapping, DeskFault>
    ensures mapping { IfOk result (λ mapping. (edit : spec.Mapping → book.Edit)
        → mapping_order edit (parts_of_members (members_view members.now.entries)) ≡ Ok (Stage (edit mapping))) }
    ensures refused { IfErr result (λ fault. fault ≢ DeskFault.Mapping MappingError.Memory → (edit : spec.Mapping → book.Edit)
        → mapping_order edit (parts_of_members (members_view members.now.entries)) ≡ Err fault) }
    ensures checked_first { (edit : spec.Mapping → book.Edit)
        → IfErr (mapping_order edit (parts_of_members (members_view members.now.entries))) (λ fault. result ≡ Err fault) }
{
    check_members(members)?;
    let parts = read_parts(alloc, members)?;
    match Mapping::build(alloc, parts) {
        Ok(mapping) => Ok(mapping),
        Err(fault) => Err(DeskFault::Mapping(fault)),
    }
}

/// The withdrawal of an object. A refusal comes even if memory is short.
fn read_withdrawal(alloc: Global, members: &Map<String, Value>) -> Result<DeskLine, DeskFault>
    ensures given { GivesOrder result (withdrawal_order (members_view members.now.entries)) }
    ensures checked_first { IfErr (withdrawal_order (members_view members.now.entries)) (λ fault. result ≡ Err fault) }
{
    let Some(source) = text_member(members, "source") else {
        return Err(DeskFault::BadLine);
    };
    let Some(source_id) = text_member(members, "sourceId") else {
        return Err(DeskFault::BadLine);
    };
    let Some(last_updated) = text_member(members, "lastUpdated") else {
        return Err(DeskFault::BadLine);
    };
    withdraw(alloc, source, source_id, last_updated)
}

fn withdraw(
    alloc: Global,
    source: &str,
    source_id: &str,
    last_updated: &str,
) -> Result<DeskLine, DeskFault>
    ensures given { GivesOrder result (withdrawal source.now source_id.now last_updated.now) }
    ensures checked_first { IfErr (withdrawal source.now source_id.now last_updated.now) (λ fault. result ≡ Err fault) }
{
    match withdrawal(alloc, source, source_id, last_updated) {
        Ok((identity, stamp)) => Ok(DeskLine::Edit(Edit::Withdraw(identity, stamp))),
        Err(fault) => Err(DeskFault::Mapping(fault)),
    }
}

/// The identity and the time of a withdrawal, or the first refusal of its texts.
fn withdrawal(
    alloc: Global,
    source: &str,
    source_id: &str,
    last_updated: &str,
) -> Result<(Identity, Stamp), MappingError>
    ensures accepted { OnOk result (withdrawal_fault source.now source_id.now last_updated.now ≡ None) }
    ensures identity { IfOk result (λ found. found.0 ≡ record { source = lowered source.now; source_id = source_id.now }) }
    ensures stamp { IfOk result (λ found. found.1 ≡ stamp_of last_updated.now) }
    ensures refused { IfErr result
        (λ fault. fault ≢ MappingError.Memory → withdrawal_fault source.now source_id.now last_updated.now ≡ Some fault) }

    // Memory is taken only after the checks.
    ensures checked_first { IfSome (withdrawal_fault source.now source_id.now last_updated.now) (λ fault. result ≡ Err fault) }
{
    check_withdrawal(source, source_id, last_updated)?;
    let identity = Identity::parse(alloc, source, source_id)?;
    let stamp = parse_stamp(alloc, last_updated)?;
    Ok((identity, stamp))
}

/// Ok if these texts make a withdrawal, otherwise their first refusal. It takes no memory.
fn check_withdrawal(source: &str, source_id: &str, last_updated: &str) -> Result<(), MappingError>
    ensures { result_err result ≡ withdrawal_fault source.now source_id.now last_updated.now }
{
    Identity::check(source, source_id)?;
    if Stamp::is_stamp(last_updated.as_bytes()) {
        Ok(())
    } else {
        Err(MappingError::BadStamp)
    }
}

fn parse_stamp(alloc: Global, text: &str) -> Result<Stamp, MappingError>
    ensures accepted { OnOk result (is_stamp text.now ≡ true) }
    ensures stamp { IfOk result (λ stamp. stamp ≡ stamp_of text.now) }
    ensures refused { IfErr result (λ fault. fault ≢ MappingError.Memory
        → (fault ≡ MappingError.BadStamp) × (is_stamp text.now ≡ false)) }
{
    match Stamp::parse(alloc, text.as_bytes()) {
        Ok(stamp) => Ok(stamp),
        Err(StampError::Bad) => Err(MappingError::BadStamp),
        Err(StampError::Memory) => Err(MappingError::Memory),
    }
}
