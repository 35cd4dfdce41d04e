//! The fields of a case: the texts between its bars, without the spaces around them.
use crate::case_error::CaseError;
use crate::spelling::spelled;
use std::alloc::Global;

/// The fields of a case as they are spelled, the call first.
#[derive(Drop)]
pub(crate) struct Fields {
    fields: Vec<Vec<u8>>,
}

impl Fields {
    /// The fields of a line.
    pub(crate) fn read(alloc: Global, line: &str) -> Result<Fields, CaseError> {
        let mut fields = Vec::new(alloc);
        for field in line.split('|') {
            fields.push(spelled(alloc, field.trim())?)?;
        }
        Ok(Fields { fields })
    }

    /// The number of fields.
    pub(crate) fn len(&self) -> usize {
        self.fields.len()
    }

    /// The wanted result: the last field.
    pub(crate) fn wanted(&self) -> Result<&[u8], CaseError> {
        match self.fields.last() {
            Some(field) => Ok(field.as_slice()),
            None => Err(CaseError::NoCase),
        }
    }

    /// The field at a position, from 0, where the call stands.
    pub(crate) fn bytes(&self, position: usize) -> Result<&[u8], CaseError> {
        match self.fields.get(position) {
            Some(field) => Ok(field.as_slice()),
            None => Err(CaseError::NoCase),
        }
    }

    /// The field at a position as text.
    pub(crate) fn text(&self, position: usize) -> Result<&str, CaseError> {
        match str::from_utf8(self.bytes(position)?) {
            Ok(text) => Ok(text),
            Err(_) => Err(CaseError::NoCase),
        }
    }

    /// The field at a position as a number.
    pub(crate) fn number(&self, position: usize) -> Result<i64, CaseError> {
        match self.text(position)?.parse() {
            Ok(number) => Ok(number),
            Err(_) => Err(CaseError::NoCase),
        }
    }

    /// The field at a position as a number that is not negative.
    pub(crate) fn count(&self, position: usize) -> Result<u64, CaseError> {
        match self.text(position)?.parse() {
            Ok(count) => Ok(count),
            Err(_) => Err(CaseError::NoCase),
        }
    }
}
