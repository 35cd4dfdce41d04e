//! HTTP/1.1 on one connection (RFC 9112).
ghost use Rattle.lost_status.specs.Answered.{IsAnswered, IsNarrow};

use crate::pages::Pages;
use crate::snapshot::Snapshot;
use http_server::{Config, Connection, serve};
use std::alloc::Global;
use std::hash::RandomState;
use std::io::{Read, Write};

/// The most bytes that a request's head may have.
const MAX_HEAD: usize = 8_192;

/// Answers one request of HTTP/1.1 or 1.0, and returns when the caller is to close the connection: after the answer or
/// a refusal, or if a read, a write or memory fails. `GET` and `HEAD` are answered, all by the numbers `now`: `/health`
/// with 200, the text `ready` and the edition if the server is ready, and with 503 and `not ready` if not; `/metrics`
/// with the numbers for Prometheus; `/status` with the numbers as a JSON object. Any other path is 404, with these three
/// paths as its text, and any other method on one of them is 405. A head of more than 8,192 bytes or 64 fields is
/// refused, and so is a body. `keys` must be secret, since the peer chooses the names of fields.
///
/// The reads and writes of `input` and `output` must fail in time: see
/// [`Deadline`](crate::Deadline).
pub fn serve_status<I: Read, O: Write>(
    alloc: Global,
    keys: RandomState,
    now: &Snapshot,
    input: &mut I,
    output: &mut O,
)
    ensures { IsAnswered now.now (I.remaining input.old) (I.remaining input.new)
        (O.contents output.old) (O.contents output.new) }
{
    let mut connection = Connection::new(alloc, keys, narrow());
    let mut pages = Pages { alloc, now };
    // The connection is over, whatever the outcome.
    let _outcome = serve(&mut connection, &mut pages, input, output);
}

/// The limits of a connection: a head of at most 8,192 bytes, and no body.
fn narrow() -> Config
    ensures { IsNarrow result }
{
    let mut config = Config::default();
    config.limits.max_head_len = MAX_HEAD;
    config.max_body_len = 0;
    config
}
