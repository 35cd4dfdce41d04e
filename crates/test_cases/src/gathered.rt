//! Texts that are gathered part by part.
use crate::case_error::CaseError;
use std::alloc::Global;
use std::fmt::Write;

/// A text that is gathered part by part, and whether memory was refused for a part.
#[derive(Drop)]
pub(crate) struct Gathered {
    text: String,
    is_refused: bool,
}

impl Gathered {
    /// No part yet.
    pub(crate) fn new(alloc: Global) -> Gathered {
        Gathered {
            text: String::new(alloc),
            is_refused: false,
        }
    }

    /// Adds a text.
    pub(crate) fn add(&mut self, part: &str) {
        if self.text.push_str(part).is_err() {
            self.is_refused = true;
        }
    }

    /// Adds texts.
    pub(crate) fn add_all(&mut self, parts: &[&str]) {
        for part in parts {
            self.add(*part);
        }
    }

    /// Adds a number.
    pub(crate) fn add_number(&mut self, number: u64) {
        if write!(self.text, "{number}").is_err() {
            self.is_refused = true;
        }
    }

    /// Adds two numbers with a comma between them.
    pub(crate) fn add_two(&mut self, first: i64, second: i64) {
        if write!(self.text, "{first},{second}").is_err() {
            self.is_refused = true;
        }
    }

    /// Adds pairs, each as `NAME=VALUE;`.
    pub(crate) fn add_pairs(&mut self, pairs: &[(String, String)]) {
        for pair in pairs {
            self.add_all(&[pair.0.as_str(), "=", pair.1.as_str(), ";"]);
        }
    }

    /// The text.
    pub(crate) fn done(self) -> Result<String, CaseError> {
        if self.is_refused {
            return Err(CaseError::Memory);
        }
        Ok(self.text)
    }
}

/// The text of parts, one behind another.
pub(crate) fn joined(alloc: Global, parts: &[&str]) -> Result<String, CaseError> {
    let mut text = Gathered::new(alloc);
    text.add_all(parts);
    text.done()
}
