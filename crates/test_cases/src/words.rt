//! Words and lists in the fields of cases, and words for the results of calls.
use crate::case_error::CaseError;
use std::alloc::Global;
use std::cmp::Ordering;
use std::hash::{DefaultHasher, Hash, Hasher};

/// `passes`, or the number of a refusal.
pub(crate) fn checked(alloc: Global, refusal: Option<u8>) -> Result<String, CaseError> {
    match refusal {
        Some(code) => refused(alloc, code),
        None => owned(alloc, "passes"),
    }
}

/// An owned copy of a text.
pub(crate) fn owned(alloc: Global, text: &str) -> Result<String, CaseError> {
    Ok(String::from_str(alloc, text)?)
}

/// The text of a refusal.
pub(crate) fn refused(alloc: Global, code: u8) -> Result<String, CaseError> {
    Ok(format!(in alloc; "refused {code}")?)
}

/// The text of an answer.
pub(crate) fn yes_or_no(answer: bool) -> &'static str {
    if answer { "yes" } else { "no" }
}

/// `same` for two values that are equal and have one hash, `other` for two that are not equal and have two.
pub(crate) fn compared<T: PartialEq + Hash>(one: &T, other: &T) -> &'static str {
    match (one == other, hash_of(one) == hash_of(other)) {
        (true, true) => "same",
        (false, false) => "other",
        _ => "at odds",
    }
}

/// How one value compares with another; `at odds` where two ways of comparing differ.
pub(crate) fn order<T: Ord + Hash>(one: &T, other: &T) -> &'static str {
    let same = compared(one, other);
    let order = one.cmp(other);
    if one.partial_cmp(other) != Some(order) {
        return "at odds";
    }
    match order {
        Ordering::Less if one < other && same == "other" => "before",
        Ordering::Equal if same == "same" => "same",
        Ordering::Greater if one > other && same == "other" => "after",
        _ => "at odds",
    }
}

/// A copy by the trait.
pub(crate) fn copy_of<T: Clone>(value: &T) -> Result<T, CaseError> {
    Ok(value.clone()?)
}

fn hash_of<T: Hash>(value: &T) -> u64 {
    let mut state = DefaultHasher::new();
    value.hash(&mut state);
    state.finish()
}

/// Two numbers with a comma between them.
pub(crate) fn number_pair(text: &str) -> Result<(i64, i64), CaseError> {
    let Some((first, second)) = text.split_once(',') else {
        return Err(CaseError::NoCase);
    };
    match (first.parse::<i64>(), second.parse::<i64>()) {
        (Ok(first), Ok(second)) => Ok((first, second)),
        _ => Err(CaseError::NoCase),
    }
}

/// Pairs of numbers with white space between each two.
pub(crate) fn number_pairs(alloc: Global, text: &str) -> Result<Vec<(i64, i64)>, CaseError> {
    let mut pairs = Vec::new(alloc);
    for pair in text.split_whitespace() {
        pairs.push(number_pair(pair)?)?;
    }
    Ok(pairs)
}

/// Pairs `NAME=VALUE`, with this mark between each two or after each.
pub(crate) fn text_pairs(
    alloc: Global,
    text: &str,
    mark: char,
) -> Result<Vec<(String, String)>, CaseError> {
    let mut pairs = Vec::new(alloc);
    for pair in text.split(mark) {
        if let Some((name, value)) = pair.split_once('=') {
            pairs.push(text_pair(alloc, name, value)?)?;
        }
    }
    Ok(pairs)
}

fn text_pair(alloc: Global, name: &str, value: &str) -> Result<(String, String), CaseError> {
    Ok((owned(alloc, name)?, owned(alloc, value)?))
}

/// What stands between two texts of a list.
pub(crate) const MARK: char = ',';

/// The texts of a list; none of an empty one.
pub(crate) fn texts(alloc: Global, text: &str) -> Result<Vec<String>, CaseError> {
    let mut texts = Vec::new(alloc);
    if !text.is_empty() {
        for part in text.split(MARK) {
            texts.push(owned(alloc, part)?)?;
        }
    }
    Ok(texts)
}
