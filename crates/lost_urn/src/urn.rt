//! A service, kept as its text.
ghost use Rattle.std.specs.Prelude.{◌≡◌, ◌≢◌, ◌≤◌, IfOk, IfErr, IsErr, IsTrue, length, take};
ghost use Rattle.std.specs.List.{join_with_byte};
ghost use Rattle.std.specs.Result.{result_err};
ghost use Rattle.lost_spec.specs.Service.{Service, read_service, service_text, is_service, is_at_or_below};
ghost use Rattle.lost_spec.specs.Service.{split_at_dots, urn_prefix};
ghost use Rattle.lost_urn.specs.Kept.{service_of, bytes_of, IsKept, EndsLabels};

use crate::service_text::ServiceText;
use crate::spelling::{PREFIX, count_labels, count_plain};
use lost_spec::faults::UrnError;
use std::alloc::{AllocError, Global};
use std::marker::Model;

/// A service URN (RFC 5031), as the list of its labels, the topmost first. There are 1 to 8 labels, each of 1 to
/// 63 lower-case letters, digits and hyphens, with no hyphen at either end (the bounds are an own rule).
#[derive(Debug)]
pub struct ServiceUrn {
    alloc: Global,
    text: ServiceText,
    depth: usize,
}

impl Drop for ServiceUrn {
    fn drop(self) {
        let ServiceUrn {
            alloc: _,
            text: _,
            depth: _,
        } = self;
    }
}

impl Model for ServiceUrn {
    ghost Value = { Service };

    ghost view = { λ u. service_of (bytes_of u.text) };

    ghost invariant = { λ u. IsKept (bytes_of u.text) u.depth };
}

impl ServiceUrn {
    /// Reads a service URN in any case (RFC 5031, section 3): `urn:service:` and then the labels with a dot between
    /// each two. The first check that fails gives the refusal (own order): `Prefix`; then for each label from the left
    /// `EmptyLabel`, `BadCharacter`, `HyphenAtEnd`, `LabelTooLong`; then `TooManyLabels`. `Memory` comes only where the
    /// text spells a service.
    pub fn parse(alloc: Global, text: &[u8]) -> Result<ServiceUrn, UrnError>
        ensures ok { IfOk result (λ s. read_service text.now ≡ Ok s) }
        ensures err { IfErr result (λ e. e ≢ UrnError.Memory → read_service text.now ≡ Err e) }

        // Memory comes only after the checks.
        ensures refused { IsErr (read_service text.now) → result ≡ read_service text.now }
    {
        // Mostly it is plain, and kept as it is.
        if let Some(depth) = count_plain(text) {
            let text = ServiceText::ascii(alloc, text).map_err(|_| UrnError::Memory)?;
            return Ok(ServiceUrn { alloc, text, depth });
        }
        let depth = count_labels(text)?;
        let text = ServiceText::lowercase(alloc, text).map_err(|_| UrnError::Memory)?;
        Ok(ServiceUrn { alloc, text, depth })
    }

    /// Ok where `parse` reads this text, and else its refusal. It takes no memory.
    pub fn check(text: &[u8]) -> Result<(), UrnError>
        ensures { result_err result ≡ result_err (read_service text.now) }
    {
        if count_plain(text).is_some() {
            return Ok(());
        }
        match count_labels(text) {
            Ok(_) => Ok(()),
            Err(fault) => Err(fault),
        }
    }

    /// The text, in lower case: `urn:service:` and the labels with a dot between each two (RFC 5031, section 3).
    pub fn text(&self) -> &str
        ensures text { result.now ≡ service_text self.now }
        ensures well_formed { IsTrue (is_service self.now) }
    {
        self.text.as_str()
    }

    /// The number of labels, from 1 to 8.
    pub fn depth(&self) -> usize
        ensures { result ≡ length self.now }
    {
        self.depth
    }

    /// Whether the labels of `other` are a prefix of those of `self`: whether `self` is `other` or one of its
    /// sub-services (RFC 5031, section 3).
    pub fn is_at_or_below(&self, other: &ServiceUrn) -> bool
        ensures { result ≡ is_at_or_below self.now other.now }
    {
        match self.text().as_bytes().strip_prefix(other.text().as_bytes()) {
            Some(rest) => rest.is_empty() || rest.starts_with(b"."),
            None => false,
        }
    }

    /// The text of the service of the first labels, where their number is from 1 to the depth. It takes no memory, so
    /// walking a service's chain makes no text.
    pub fn front(&self, labels: usize) -> &str
        requires some { 1 ≤ labels }
        requires within { labels ≤ length self.now }
        ensures text { result.now ≡ service_text (take labels self.now) }
        ensures well_formed { IsTrue (is_service (take labels self.now)) }
    {
        let text = self.text();
        if labels == self.depth {
            return text;
        }
        let end = end_of_labels(text.as_bytes(), labels);
        &text[..end]
    }

    /// The service of the first `n` labels, where `n` is from 1 to the depth.
    pub fn cut(&self, n: usize) -> Result<ServiceUrn, AllocError>
        requires some { 1 ≤ n }
        requires within { n ≤ length self.now }
        ensures { IfOk result (λ s. s ≡ take n self.now) }
    {
        let text = ServiceText::of(self.alloc, self.front(n))?;
        Ok(ServiceUrn {
            alloc: self.alloc,
            text,
            depth: n,
        })
    }

    /// A copy.
    pub fn clone(&self) -> Result<ServiceUrn, AllocError>
        ensures { IfOk result (λ s. s ≡ self.now) }
    {
        let text = ServiceText::of(self.alloc, self.text.as_str())?;
        Ok(ServiceUrn {
            alloc: self.alloc,
            text,
            depth: self.depth,
        })
    }
}

/// Where the first `n` labels of a service's text end: at the `n`th dot, or at the end of the text. The prefix has no
/// dot, and is not read.
fn end_of_labels(text: &[u8], n: usize) -> usize
    requires some { 1 ≤ n }
    requires prefixed { length urn_prefix ≤ length text.now }
    ensures within { result ≤ length text.now }
    ensures front { EndsLabels text.now n result }
{
    PREFIX.len() + end_of_parts(&text[PREFIX.len()..], n)
}

/// Where the first `n` parts between dots end: at the `n`th dot, or at the end of the text.
fn end_of_parts(text: &[u8], n: usize) -> usize
    requires { 1 ≤ n }
    ensures within { result ≤ length text.now }
    ensures front { take result text.now ≡ join_with_byte 46 (take n (split_at_dots text.now)) }
{
    let mut left = n;
    for (at, byte) in text.iter().enumerate() {
        if *byte == b'.' {
            left -= 1;
            if left == 0 {
                return at;
            }
        }
    }
    text.len()
}
