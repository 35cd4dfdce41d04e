//! The laws of the calls of a desk and its readers. Each function's contract is a law, and its body is empty.

ghost use Rattle.lost_simulation.specs.Law.{CallsAreARun, CallsAreLawful};

/// Whatever the calls of a desk and its readers give, in any order, is a run of the world of steps: its events are what
/// the calls gave, replies included. After each call the same edits are published and pending, each worker has seen the
/// same, and the world is lawful. A reader's call counts once the desk has published all that the reader has seen. What
/// is dropped was never published, and is in no step.
pub fn calls_are_a_run()
    ensures { CallsAreARun }
{}

/// What the desk has published and what each reader has seen, after any two calls, is lawful too, whatever is dropped in
/// between: both only grow, what is seen is a front of what is published, and of two readers one has seen a front of the
/// other's. A reader that has learned of some edits has seen them.
pub fn calls_are_lawful()
    ensures { CallsAreLawful }
{}
