//! The limits of desks and books.
use lost_book::Limits;

/// The limits of a desk that reads lines: 1,000 mappings, 1,000 edits and one trace.
pub fn limits() -> Limits {
    Limits::new(1_000, 1_000)
        .and_then(|limits| limits.with_traces(1))
        .unwrap_or(Limits::widest())
}

/// The limits in a text of two or three numbers with a space between each two: the most mappings held, edits accepted
/// and traces remembered. Without the third number, the first two set the traces. `None` for limits that are not
/// allowed, and for any other text.
pub fn limits_of(text: &str) -> Option<Limits> {
    let mut words = text.split(' ');
    let mappings = words.next()?.parse::<u32>().ok()?;
    let edits = words.next()?.parse::<u32>().ok()?;
    let limits = Limits::new(mappings, edits)?;
    match words.next() {
        Some(traces) => limits.with_traces(traces.parse::<u32>().ok()?),
        None => Some(limits),
    }
}
