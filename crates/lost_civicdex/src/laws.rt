//! A law of required elements, over the definitions alone. The function's contract is the law, and its body is empty.

ghost use Rattle.lost_civicdex.specs.References.{RequiredAgree};

/// For elements that stand in an address: a pattern names their keys exactly where it is a reference for them, that
/// is, names each of them with the address's comparison text (RFC 5222, section 8.4.2; the policy is an own rule).
pub fn required_elements_agree()
    ensures { RequiredAgree }
{}
