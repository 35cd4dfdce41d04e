//! How a field is spelled. `%{4:ab}` is `abababab`; in it, `%#` is the number of the turn, from 0. Repetitions may
//! nest. `%` with two hexadecimal digits is the byte of that number.
use crate::case_error::CaseError;
use crate::gathered::Gathered;
use percent_encoding::percent_decode;
use std::alloc::Global;

/// How many repetitions a field may have.
const MAX_REPETITIONS: usize = 64;

/// The bytes that a field spells.
pub(crate) fn spelled(alloc: Global, field: &str) -> Result<Vec<u8>, CaseError> {
    let text = repeated(alloc, field)?;
    let mut bytes = Vec::new(alloc);
    percent_decode(text.as_bytes()).append_to(&mut bytes)?;
    Ok(bytes)
}

/// The field with its repetitions written out.
fn repeated(alloc: Global, field: &str) -> Result<String, CaseError> {
    let mut text = String::from_str(alloc, field)?;
    for _ in 0..MAX_REPETITIONS {
        match with_the_last_repeated(alloc, text.as_str())? {
            Some(longer) => text = longer,
            None => return Ok(text),
        }
    }
    Err(CaseError::NoCase)
}

/// The text with its last repetition, which holds no other one, written out; `None` where it has none.
fn with_the_last_repeated(alloc: Global, text: &str) -> Result<Option<String>, CaseError> {
    let Some((front, rest)) = text.rsplit_once("%{") else {
        return Ok(None);
    };
    let Some((repetition, back)) = rest.split_once('}') else {
        return Err(CaseError::NoCase);
    };
    let mut longer = Gathered::new(alloc);
    longer.add(front);
    add_turns(&mut longer, repetition)?;
    longer.add(back);
    Ok(Some(longer.done()?))
}

/// Adds the turns of a repetition `COUNT:PART`.
fn add_turns(text: &mut Gathered, repetition: &str) -> Result<(), CaseError> {
    let Some((count, part)) = repetition.split_once(':') else {
        return Err(CaseError::NoCase);
    };
    let Ok(count) = count.parse::<u32>() else {
        return Err(CaseError::NoCase);
    };
    for number in 0..count {
        add_turn(text, part, number);
    }
    Ok(())
}

/// Adds one turn of a repetition.
fn add_turn(text: &mut Gathered, part: &str, number: u32) {
    match part.split_once("%#") {
        Some((before, after)) => {
            text.add(before);
            text.add_number(u64::from(number));
            text.add(after);
        }
        None => text.add(part),
    }
}
