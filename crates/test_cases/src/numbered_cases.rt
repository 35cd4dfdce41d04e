//! Calls of lost_tables: mappings under their numbers.
ghost use Rattle.std.specs.Prelude.{◌<◌, length, IfOk};

use crate::case_error::CaseError;
use crate::descriptions::mapping;
use crate::fields::Fields;
use crate::gathered::Gathered;
use crate::words::MARK;
use lost_mapping::Mapping;
use lost_tables::NumberedMappings;
use std::alloc::Global;

/// The result of a call.
pub(crate) fn said(alloc: Global, call: &str, fields: &Fields) -> Result<String, CaseError> {
    match call {
        "numbered edits" => edited(alloc, fields.text(1)?, &mut NumberedMappings::new(alloc)),
        _ => Err(CaseError::NoCase),
    }
}

/// What each edit of a list says, and then what is held: each number with the sourceId of its mapping.
fn edited(alloc: Global, edits: &str, rows: &mut NumberedMappings) -> Result<String, CaseError> {
    let mut text = Gathered::new(alloc);
    for edit in edits.split(MARK) {
        make_edit(alloc, rows, edit, &mut text)?;
    }
    add_rows(&mut text, rows);
    text.done()
}

/// Makes an edit: `push NUMBER DESCRIPTION`, `set POSITION DESCRIPTION` or `remove POSITION`. Where an edit takes a
/// mapping, adds its number and its sourceId as they stand before the edit.
fn make_edit(
    alloc: Global,
    rows: &mut NumberedMappings,
    edit: &str,
    text: &mut Gathered,
) -> Result<(), CaseError> {
    let Some((verb, rest)) = edit.split_once(' ') else {
        return Err(CaseError::NoCase);
    };
    let (number, description) = rest.split_once(' ').unwrap_or((rest, ""));
    match verb {
        "push" => push(alloc, rows, number, description),
        "set" => set(alloc, rows, number, description, text),
        "remove" => remove(rows, number, text),
        _ => Err(CaseError::NoCase),
    }
}

fn push(
    alloc: Global,
    rows: &mut NumberedMappings,
    number: &str,
    description: &str,
) -> Result<(), CaseError> {
    let Ok(number) = number.parse::<u64>() else {
        return Err(CaseError::NoCase);
    };
    Ok(rows.push(number, mapping(alloc, description)?)?)
}

/// Sets the row at a position to a description.
fn set(
    alloc: Global,
    rows: &mut NumberedMappings,
    number: &str,
    description: &str,
    text: &mut Gathered,
) -> Result<(), CaseError> {
    let position = position(rows, number)?;
    add_row(text, rows.number_at(position), rows.at(position));
    rows.set(position, mapping(alloc, description)?);
    Ok(())
}

fn remove(rows: &mut NumberedMappings, number: &str, text: &mut Gathered) -> Result<(), CaseError> {
    let position = position(rows, number)?;
    let (number, mapping) = rows.remove(position);
    add_row(text, number, &mapping);
    Ok(())
}

/// The position that a text names, which is below the number of rows.
fn position(rows: &NumberedMappings, text: &str) -> Result<usize, CaseError>
    ensures { IfOk result (λ position. position < length rows.now.mappings) }
{
    let Ok(position) = text.parse::<usize>() else {
        return Err(CaseError::NoCase);
    };
    if position < rows.len() {
        Ok(position)
    } else {
        Err(CaseError::NoCase)
    }
}

/// Adds how many rows there are, and each row, up to the first position that has none.
fn add_rows(text: &mut Gathered, rows: &NumberedMappings) {
    text.add_number(rows.len() as u64);
    text.add(" held:");
    for position in 0..rows.len().saturating_add(1) {
        if let (Some(number), Some(mapping)) = (rows.number(position), rows.get(position)) {
            add_row(text, number, mapping);
        }
    }
}

/// Adds a number and the sourceId of its mapping.
fn add_row(text: &mut Gathered, number: u64, mapping: &Mapping) {
    text.add_number(number);
    text.add_all(&[" ", mapping.identity().source_id(), ","]);
}
