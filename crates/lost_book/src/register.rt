//! Which edits are refused (own order), for any type that holds mappings.
ghost use Rattle.std.specs.Prelude.{◌≡◌, ◌&&◌, not, length};
ghost use Rattle.std.specs.List.{list_any};
ghost use Rattle.std.specs.Option.{option_copied};
ghost use Rattle.std.specs.Result.{result_err};
ghost use Rattle.lost_spec.specs.Book as spec;
ghost use Rattle.lost_spec.specs.Book.{has_identity, has_key, is_held, held, is_key_held, is_not_newer, is_not_after, is_key_unchanged, identity_of, is_spent, is_full, has_most_traces, withdrawn, publish_refusal, replace_refusal, withdraw_refusal, refusal};
ghost use Rattle.lost_mapping.specs.Edit.{edit_of};

use crate::limits::Limits;
use crate::regions::{have_same_key, have_same_regions};
use lost_mapping::{Edit, Identity, Mapping, Stamp};
use lost_spec::faults::EditError;

/// A type that holds mappings, however it keeps them, with what a refusal depends on. No call takes memory.
pub trait Register {
    /// The book that it stands for.
    ghost book: { Self → spec.Book };

    /// The limits.
    fn limits(&self) -> Limits
        ensures { result ≡ (book self.now).limits };

    /// How many edits were accepted.
    fn edits(&self) -> u64
        ensures { result ≡ (book self.now).edits };

    /// How many mappings are held.
    fn count(&self) -> usize
        ensures { result ≡ length (book self.now).mappings };

    /// How many withdrawn identities are remembered.
    fn trace_count(&self) -> usize
        ensures { result ≡ length (book self.now).traces };

    /// The stamp of the withdrawal of this identity, where it is remembered.
    fn withdrawn(&self, identity: &Identity) -> Option<&Stamp>
        ensures { option_copied result ≡ withdrawn (book self.now) identity.now };

    /// Whether a mapping with this identity is held.
    fn is_held(&self, identity: &Identity) -> bool
        ensures { result ≡ is_held (book self.now) identity.now };

    /// The mapping held with this identity.
    fn held(&self, identity: &Identity) -> Option<&Mapping>
        ensures { option_copied result ≡ held (book self.now) identity.now };

    /// Whether a mapping of another identity has this key.
    fn is_key_of_another(&self, identity: &Identity, key: &str) -> bool
        ensures { result ≡ list_any (λ m. not (has_identity m identity.now) && has_key m key.now) (book self.now).mappings };
}

/// The first refusal of an edit, as [`Book::check`](crate::Book::check) says it. It takes no memory.
///
/// # Errors
///
/// The first refusal that applies; never [`EditError::Memory`].
pub fn check_edit<R: Register>(register: &R, edit: &Edit) -> Result<(), EditError>
    ensures { result_err result ≡ refusal (R.book register.now) (edit_of edit.now) }
{
    match edit {
        Edit::Publish(mapping) => check_publish(register, mapping),
        Edit::Replace(mapping) => check_replace(register, mapping),
        Edit::Withdraw(identity, stamp) => check_withdraw(register, identity, stamp),
    }
}

/// The first refusal of a publish.
///
/// # Errors
///
/// As [`check_edit`].
pub fn check_publish<R: Register>(register: &R, mapping: &Mapping) -> Result<(), EditError>
    ensures { result_err result ≡ publish_refusal (R.book register.now) mapping.now }
{
    if is_spent(register) {
        return Err(EditError::EditsSpent);
    }
    if register.is_held(mapping.identity()) {
        return Err(EditError::IdentityHeld);
    }
    if is_not_after(register, mapping.identity(), mapping.stamp()) {
        return Err(EditError::Withdrawn);
    }
    if is_full(register) {
        return Err(EditError::Full);
    }
    if is_key_held(register, mapping) {
        return Err(EditError::KeyHeld);
    }
    Ok(())
}

/// The first refusal of a replacement.
///
/// # Errors
///
/// As [`check_edit`].
pub fn check_replace<R: Register>(register: &R, mapping: &Mapping) -> Result<(), EditError>
    ensures { result_err result ≡ replace_refusal (R.book register.now) mapping.now }
{
    if is_spent(register) {
        return Err(EditError::EditsSpent);
    }
    if !register.is_held(mapping.identity()) {
        return Err(EditError::IdentityUnknown);
    }
    if is_not_newer(register, mapping.identity(), mapping.stamp()) {
        return Err(EditError::NotNewer);
    }
    if is_key_held(register, mapping) {
        return Err(EditError::KeyHeld);
    }
    if is_key_unchanged(register, mapping) {
        return Err(EditError::KeyUnchanged);
    }
    Ok(())
}

/// The first refusal of a withdrawal.
///
/// # Errors
///
/// As [`check_edit`].
pub fn check_withdraw<R: Register>(
    register: &R,
    identity: &Identity,
    stamp: &Stamp,
) -> Result<(), EditError>
    ensures { result_err result ≡ withdraw_refusal (R.book register.now) identity.now stamp.now }
{
    if is_spent(register) {
        return Err(EditError::EditsSpent);
    }
    if !register.is_held(identity) {
        return Err(EditError::IdentityUnknown);
    }
    if is_not_newer(register, identity, stamp) {
        return Err(EditError::NotNewer);
    }
    if has_most_traces(register) {
        return Err(EditError::TracesFull);
    }
    Ok(())
}

/// Whether as many edits as the limit were accepted.
fn is_spent<R: Register>(register: &R) -> bool
    ensures { result ≡ is_spent (R.book register.now) }
{
    register.edits() >= u64::from(register.limits().edits())
}

/// Whether as many mappings as the limit are held.
fn is_full<R: Register>(register: &R) -> bool
    ensures { result ≡ is_full (R.book register.now) }
{
    register.count() as u64 >= u64::from(register.limits().mappings())
}

/// Whether as many withdrawn identities as the limit are remembered.
fn has_most_traces<R: Register>(register: &R) -> bool
    ensures { result ≡ has_most_traces (R.book register.now) }
{
    register.trace_count() as u64 >= u64::from(register.limits().traces())
}

/// Whether another mapping held has the key of this one.
fn is_key_held<R: Register>(register: &R, mapping: &Mapping) -> bool
    ensures { result ≡ is_key_held (R.book register.now) (identity_of mapping.now) mapping.now.key }
{
    match mapping.key() {
        Some(key) => register.is_key_of_another(mapping.identity(), key),
        None => false,
    }
}

/// Whether a stamp is not after that of the mapping held with this identity.
fn is_not_newer<R: Register>(register: &R, identity: &Identity, stamp: &Stamp) -> bool
    ensures { result ≡ is_not_newer (held (R.book register.now) identity.now) stamp.now }
{
    match register.held(identity) {
        Some(old) => !old.stamp().moment().is_earlier(&stamp.moment()),
        None => false,
    }
}

/// Whether a stamp is not after that of the withdrawal of this identity.
fn is_not_after<R: Register>(register: &R, identity: &Identity, stamp: &Stamp) -> bool
    ensures { result ≡ is_not_after (withdrawn (R.book register.now) identity.now) stamp.now }
{
    match register.withdrawn(identity) {
        Some(trace) => !trace.moment().is_earlier(&stamp.moment()),
        None => false,
    }
}

/// Whether the mapping held with this one's identity has other regions and the same key.
fn is_key_unchanged<R: Register>(register: &R, mapping: &Mapping) -> bool
    ensures { result ≡ is_key_unchanged (held (R.book register.now) (identity_of mapping.now)) mapping.now }
{
    match register.held(mapping.identity()) {
        Some(old) => !have_same_regions(old, mapping) && have_same_key(old, mapping),
        None => false,
    }
}
