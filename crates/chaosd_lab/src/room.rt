//! Room for the text of an event.
ghost use Rattle.std.specs.Prelude.{◌≡◌, [], IfErr, OnOk};
ghost use Rattle.std.specs.Io.KnownBytes.{Keeps};
ghost use Rattle.chaosd_io.specs.Buffer.{written_of};
ghost use Rattle.chaosd_io.specs.declared.fault.RunFault.TheVariants.{WriteFault};

use chaosd_io::{RunFault, WriteBuffer};
use std::io::Write;

/// No event's text has more bytes: that of a tick that sends 64 copies again, or that of a read of
/// 488 bytes, each as an escape; with the line that asks for it.
const EVENT_ROOM: usize = 8_192;

/// Hands on the text that waits.
///
/// # Errors
/// `WriteFault` where the writer fails.
pub fn hand_on<W: Write>(out: &mut WriteBuffer, writer: &mut W) -> Result<(), RunFault>
    ensures kept { Keeps (written_of (W.contents writer.old) out.old)
        (written_of (W.contents writer.new) out.new) }
    ensures empty { OnOk result (out.new ≡ []) }
    ensures fault { IfErr result (λ fault. fault ≡ WriteFault) }
{
    match out.hand_on(writer) {
        Ok(()) => Ok(()),
        Err(_) => Err(RunFault::WriteFault),
    }
}

/// Hands on the text that waits, if the text of another event might not fit behind it.
///
/// # Errors
/// `WriteFault` where the writer fails.
pub fn make_room<W: Write>(out: &mut WriteBuffer, writer: &mut W) -> Result<(), RunFault>
    // What was written, with what waits behind it, stays the same.
    ensures kept { Keeps (written_of (W.contents writer.old) out.old)
        (written_of (W.contents writer.new) out.new) }
    // Only a fault of writing ends it.
    ensures fault { IfErr result (λ fault. fault ≡ WriteFault) }
{
    if out.room() < EVENT_ROOM {
        hand_on(out, writer)?;
    }
    Ok(())
}
