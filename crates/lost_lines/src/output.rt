//! Replies on their way to the output: they are gathered, and sent together.
ghost use Rattle.std.specs.Prelude.{◌≡◌, ◌<◌, ◌≤◌, ◌++◌, [], false, if◌then◌else◌, take, length, IfOk, OnOk, OnErr};
ghost use Rattle.std.specs.Io.KnownBytes.{Keeps, Appends};
ghost use Rattle.lost_lines.specs.Watched.{inner_of, is_unflushed};
ghost use Rattle.lost_lines.specs.Sending.{Sends, SendsUpTo, SetsFlag};
ghost use Rattle.lost_lines.specs.Stream.{AppendsFront};

use crate::fault::ServeError;
use crate::watched::Watched;
use std::io::Write;

/// The most bytes that are gathered before they are sent.
const MAX_GATHERED: usize = 65_536;

/// Gathers a text, or sends it at once where replies are not gathered.
pub(crate) fn pass_on<W: Write>(
    gathered: &mut Vec<u8>,
    output: &mut Watched<W>,
    text: &[u8],
    is_gathering: bool,
) -> Result<(), ServeError>
    ensures ok { OnOk result (Sends (W.contents (inner_of output.old)) gathered.old.items
        (W.contents (inner_of output.new)) gathered.new.items text.now) }
    ensures at_once { is_gathering ≡ false → OnOk result ((gathered.new.items ≡ []) × (is_unflushed output.new ≡ false)) }
    ensures err { OnErr result (AppendsFront (W.contents (inner_of output.old)) (W.contents (inner_of output.new))
        (gathered.old.items ++ text.now)) }
    ensures flag { SetsFlag output.old output.new result }
{
    gather(gathered, output, text)?;
    if is_gathering {
        return Ok(());
    }
    settle(gathered, output)
}

/// Gathers a text; where there is no room, sends the gathered bytes first.
fn gather<W: Write>(
    gathered: &mut Vec<u8>,
    output: &mut Watched<W>,
    text: &[u8],
) -> Result<(), ServeError>
    ensures ok { OnOk result (Sends (W.contents (inner_of output.old)) gathered.old.items
        (W.contents (inner_of output.new)) gathered.new.items text.now) }
    ensures err { OnErr result (AppendsFront (W.contents (inner_of output.old)) (W.contents (inner_of output.new))
        (gathered.old.items ++ text.now)) }
    ensures flag { SetsFlag output.old output.new result }
{
    if add(gathered, text) {
        return Ok(());
    }
    release(gathered, output)?;
    gather_or_send(gathered, output, text)
}

/// Gathers a text; where there is no room, sends the gathered bytes and then the text.
fn gather_or_send<W: Write>(
    gathered: &mut Vec<u8>,
    output: &mut Watched<W>,
    text: &[u8],
) -> Result<(), ServeError>
    ensures ok { OnOk result (Sends (W.contents (inner_of output.old)) gathered.old.items
        (W.contents (inner_of output.new)) gathered.new.items text.now) }
    ensures err { OnErr result (AppendsFront (W.contents (inner_of output.old)) (W.contents (inner_of output.new))
        (gathered.old.items ++ text.now)) }
    ensures flag { SetsFlag output.old output.new result }
{
    if add(gathered, text) {
        return Ok(());
    }
    release(gathered, output)?;
    send(output, text)
}

/// Adds a text to the gathered bytes where there is room, and says whether it did.
fn add(gathered: &mut Vec<u8>, text: &[u8]) -> bool
    ensures { gathered.new.items
        ≡ (if result then gathered.old.items ++ text.now else gathered.old.items) }
{
    gathered.len().saturating_add(text.len()) <= MAX_GATHERED
        && gathered.extend_from_slice(text).is_ok()
}

/// Sends the gathered bytes, and flushes the output.
pub(crate) fn settle<W: Write>(
    gathered: &mut Vec<u8>,
    output: &mut Watched<W>,
) -> Result<(), ServeError>
    ensures sent { SendsUpTo (W.contents (inner_of output.old)) (W.contents (inner_of output.new)) gathered.old.items result }
    ensures empty { OnOk result (gathered.new.items ≡ []) }
    ensures flag { SetsFlag output.old output.new result }
    ensures flushed { OnOk result (is_unflushed output.new ≡ false) }
{
    release(gathered, output)?;
    output.flush().map_err(|_| ServeError::Write)
}

/// Sends the gathered bytes.
fn release<W: Write>(gathered: &mut Vec<u8>, output: &mut Watched<W>) -> Result<(), ServeError>
    ensures sent { SendsUpTo (W.contents (inner_of output.old)) (W.contents (inner_of output.new)) gathered.old.items result }
    ensures empty { OnOk result (gathered.new.items ≡ []) }
    ensures flag { SetsFlag output.old output.new result }
{
    send(output, gathered.as_slice())?;
    gathered.clear();
    Ok(())
}

/// Writes all the bytes.
fn send<W: Write>(output: &mut Watched<W>, bytes: &[u8]) -> Result<(), ServeError>
    ensures sent { SendsUpTo (W.contents (inner_of output.old)) (W.contents (inner_of output.new)) bytes.now result }
    ensures flag { SetsFlag output.old output.new result }
{
    let mut rest = bytes;
    while !rest.is_empty() {
        let count = send_some(output, rest)?;
        rest = &rest[count..];
    }
    Ok(())
}

/// Writes some of the bytes, and gives how many.
fn send_some<W: Write>(output: &mut Watched<W>, bytes: &[u8]) -> Result<usize, ServeError>
    requires { 0 < length bytes.now }
    ensures some { IfOk result (λ count. 0 < count) }
    ensures within { IfOk result (λ count. count ≤ length bytes.now) }
    ensures ok { IfOk result (λ count.
        Appends (W.contents (inner_of output.old)) (W.contents (inner_of output.new)) (take count bytes.now)) }
    ensures err { OnErr result (Keeps (W.contents (inner_of output.old)) (W.contents (inner_of output.new))) }
    ensures flag { SetsFlag output.old output.new result }
{
    let Ok(count) = output.write(bytes) else {
        return Err(ServeError::Write);
    };
    if count == 0 {
        return Err(ServeError::Write);
    }
    Ok(count)
}
