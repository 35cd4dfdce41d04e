//! Accepting connections.
ghost use Rattle.std.specs.Prelude.{IfSome};
ghost use Rattle.lost_sockets.specs.Kind.{AreOfKind};

use crate::listener::Listener;
use crate::peer::Peer;
use crate::stream::Stream;
use std::sync::Wait;
use std::sync::atomic::{AtomicBool, Ordering};
use std::thread::sleep;
use std::time::{Clock, Duration};

/// How often in a row an accept may fail before the listener is given up.
const MAX_ATTEMPTS: u32 = 360_000;

/// How long to wait after a failed accept, as when too many files are open, in milliseconds.
const PAUSE: u64 = 10;

/// Waits for the next connection. A failed accept is repeated after a pause. After 360,000 failures in a row, an hour,
/// the listener is given up: `None`.
pub fn accept<R: Clock>(rt: &R, listener: &Listener) -> Option<(Stream, Peer)>
    ensures { IfSome result (AreOfKind listener.now) }
{
    for _ in 0..MAX_ATTEMPTS {
        if let Ok(accepted) = listener.accept_once() {
            return Some(accepted);
        }
        sleep(rt, Duration::from_millis(PAUSE));
    }
    None
}

/// How long to wait when there is no connection, in milliseconds.
const NEXT_LOOK: u64 = 20;

/// Waits for the next connection, or until `is_over` is set. The listener must not wait. One that fails is asked again
/// after a pause.
pub fn accept_until<R: Wait + Clock>(
    rt: &R,
    listener: &Listener,
    is_over: &AtomicBool,
) -> Option<(Stream, Peer)>
    ensures { IfSome result (AreOfKind listener.now) }
{
    for _ in rt.forever() {
        if is_over.load(Ordering::SeqCst) {
            return None;
        }
        if let Ok(accepted) = listener.accept_once() {
            return Some(accepted);
        }
        sleep(rt, Duration::from_millis(NEXT_LOOK));
    }
    None
}
