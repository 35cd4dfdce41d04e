//! The line that withdraws an identity.
ghost use Rattle.std.specs.Prelude.{◌≡◌, IfOk};
ghost use Rattle.serde_json.specs.View.{view};
ghost use Rattle.lost_export.specs.Export.{withdraw_data, withdraw_json, withdraw_text};
ghost use Rattle.lost_export.specs.ReadBack.{WithdrawalReadsBack};
ghost use Rattle.lost_export.specs.Withdrawn.{IsWithdrawal};

use lost_mapping::{Identity, Stamp};
use serde_json::{Value, json};
use std::alloc::{AllocError, Global};

/// The tree of the desk line that withdraws an identity at a stamp.
fn withdraw_tree(alloc: Global, identity: &Identity, stamp: &Stamp) -> Result<Value, AllocError>
    ensures tree { IfOk result (λ tree. view tree ≡ withdraw_data identity.now stamp.now) }
    ensures well_formed { IfOk result (λ tree. IsWithdrawal identity.now stamp.now) }
{
    let source = identity.source().text();
    let source_id = identity.source_id();
    let text = stamp.text();
    json!(in alloc; {"withdraw": {"lastUpdated": text, "source": source, "sourceId": source_id}})
}

/// The text of the desk line that withdraws an identity at a stamp, without a byte 10.
fn withdraw_json(alloc: Global, identity: &Identity, stamp: &Stamp) -> Result<Vec<u8>, AllocError>
    ensures text { IfOk result (λ json. json.items ≡ withdraw_json identity.now stamp.now) }
    ensures reads_back { IfOk result (λ json. WithdrawalReadsBack identity.now stamp.now) }
{
    let tree = withdraw_tree(alloc, identity, stamp)?;
    tree.to_vec(alloc)
}

/// The desk line that withdraws an identity at a stamp, with its byte 10 (own format).
///
/// # Errors
///
/// [`AllocError`] where there is no memory for the line.
pub fn withdraw_line(
    alloc: Global,
    identity: &Identity,
    stamp: &Stamp,
) -> Result<Vec<u8>, AllocError>
    ensures text { IfOk result (λ line. line.items ≡ withdraw_text identity.now stamp.now) }

    // A reader of desk lines reads the withdrawal of this identity at this stamp.
    ensures reads_back { IfOk result (λ line. WithdrawalReadsBack identity.now stamp.now) }
{
    let mut line = withdraw_json(alloc, identity, stamp)?;
    line.push(b'\n')?;
    Ok(line)
}
