//! The run over a script.
ghost use Rattle.std.specs.Prelude.{◌≡◌, ◌<◌, ◌≤◌, ◌⊎◌, ℕ, Err, IfErr, Some, OnOk};
ghost use Rattle.chaosd_io.specs.Buffer.{written_of};
ghost use Rattle.chaosd_io.specs.declared.limits.TheConstants.{INPUT_LIMIT};
ghost use Rattle.chaosd_ask.specs.Asking.{AsksLine, Idles};
ghost use Rattle.chaosd_ask.specs.Command.{wrong_command};
ghost use Rattle.chaosd_ask.specs.Conversation.{Asks, Converses, IfAsked, is_broken};
ghost use Rattle.chaosd_ask.specs.Notes.{NotesLine, NotesRun, no_notes};
ghost use Rattle.chaosd_ask.specs.Script.{Runs};
ghost use Rattle.file_client.specs.Fault.{IsTurnFault};
ghost use Rattle.file_client.specs.Talk.{talker};

use crate::command::{ScriptBuffers, read_command};
use crate::end::ScriptEnd;
use crate::input_ready::InputReady;
use crate::notes::{Notes, ReplyNotes};
use crate::replies::{hand_on, print_none, print_reply};
use chaos_node::NodeFault;
use chaosd_io::{Data, INPUT_LIMIT, KEPT_LEN, LineReader, RunFault, WriteBuffer};
use file_client::{Client, Driver};
use file_copy::Talk;
use std::io::{Read, Write};

/// Runs a script by this client, which asks each command, and closes the connection however the run
/// ends, but for a fault of a link or of the clock: no turn is taken after those.
/// The run ends by its first fault. Replies wait until the reader is asked for more, or to the end.
/// So somebody who types sees each reply at once, and a script that is there takes one call of the
/// writer for many replies.
///
/// Before each read the reader is asked whether it has something to give, as `P` says. While it
/// hasn't, and there is a connection, the client takes turns. So it answers the server's probes
/// while somebody types. `notes` gets what is noted of the run.
///
/// # Errors
/// As [`crate::run_loop`], and `ClockFault` where the clock can't be read.
pub fn ask_script<P: InputReady<R>, D: Driver, R: Read, W: Write>(
    client: &mut Client<'_, D>,
    reader: &mut R,
    writer: &mut W,
    notes: &mut Notes,
) -> Result<ScriptEnd, RunFault>
    // The lines that were commands, what was printed, and how the run ended are as in `run_loop`.
    ensures runs { Runs (R.remaining reader.old) (R.remaining reader.new) (W.contents writer.old)
        (W.contents writer.new) result }
    // What the connection wrote and read is as in `run_loop`, at the pace of the client's driver.
    // While nothing more is there to read, only turns are taken. After a fault the connection may also stay open where the clock is one
    // that can't always be read, or failures of a link were counted.
    ensures talk { IfAsked result
        (Converses (D.pace (D.time client.old.driver))
        (D.stops (D.time client.old.driver) ⊎ (0 < D.failures client.new.driver))
        (talker client.old.host.now.caller (D.queue client.old.driver))
        (D.queue client.new.driver) (R.remaining reader.old) (R.remaining reader.new)
        (W.contents writer.old) (W.contents writer.new) result) }
    // The notes are those of the replies that were printed, one after another. Where a line that
    // stands for no command ended the run, it was noted what is wrong with that line.
    ensures noted { NotesRun (R.remaining reader.old) (W.contents writer.old) (W.contents writer.new)
        notes.new.bad_line notes.new.replies result }
    // The run ends well only if the links' count of failures didn't rise.
    ensures well { OnOk result (D.failures client.new.driver ≤ D.failures client.old.driver) }
    // The run ends by `LinkFault` only if failures of a link were counted.
    ensures failed { result ≡ Err RunFault.LinkFault → 0 < D.failures client.new.driver }
    // The links and the clock stay.
    ensures same_driver { (D.links client.new.driver ≡ D.links client.old.driver)
        × (D.time client.new.driver ≡ D.time client.old.driver) }
{
    let end = ask_all::<P, D, R, W>(client, reader, writer, notes);
    if is_broken(&end) {
        return end;
    }
    let parted = client.hang_up();
    let end = end?;
    parted?;
    Ok(end)
}

/// Whether no turn can be taken any more: a link failed, or the clock.
fn is_broken(end: &Result<ScriptEnd, RunFault>) -> bool
    ensures { result ≡ is_broken end.now }
{
    matches!(end, Err(RunFault::LinkFault | RunFault::ClockFault))
}

/// Asks each command in turn and prints its reply, until one gets none. Behind the last an EOF is
/// sent. What waits to be printed is handed on however that ends.
fn ask_all<P: InputReady<R>, D: Driver, R: Read, W: Write>(
    client: &mut Client<'_, D>,
    reader: &mut R,
    writer: &mut W,
    notes: &mut Notes,
) -> Result<ScriptEnd, RunFault>
    ensures runs { Runs (R.remaining reader.old) (R.remaining reader.new) (W.contents writer.old)
        (W.contents writer.new) result }
    ensures same_driver { (D.links client.new.driver ≡ D.links client.old.driver)
        × (D.time client.new.driver ≡ D.time client.old.driver) }
    ensures failed { result ≡ Err RunFault.LinkFault → 0 < D.failures client.new.driver }
    ensures well { OnOk result (D.failures client.new.driver ≤ D.failures client.old.driver) }
    ensures talk { Asks (D.pace (D.time client.old.driver)) (talker client.old.host.now.caller (D.queue client.old.driver))
        (talker client.new.host.now.caller (D.queue client.new.driver)) (R.remaining reader.old)
        (R.remaining reader.new) (W.contents writer.old) (W.contents writer.new) result }
    ensures noted { NotesRun (R.remaining reader.old) (W.contents writer.old) (W.contents writer.new)
        notes.new.bad_line notes.new.replies result }
{
    let out = WriteBuffer::new();
    let mut buffers = ScriptBuffers {
        command: Data::new(),
        reply: Data::new(),
        out,
        notes: Notes::new(),
    };
    let end = ask_lines::<P, D, R, W>(client, reader, &mut buffers, writer);
    *notes = buffers.notes;
    let printed = hand_on(&mut buffers.out, writer);
    if is_broken(&end) {
        return end;
    }
    printed?;
    end
}

/// Asks each command in turn, and puts its reply behind what waits to be printed, which is handed
/// on before each read.
fn ask_lines<P: InputReady<R>, D: Driver, R: Read, W: Write>(
    client: &mut Client<'_, D>,
    reader: &mut R,
    buffers: &mut ScriptBuffers,
    writer: &mut W,
) -> Result<ScriptEnd, RunFault>
    requires fresh { buffers.old.notes.replies ≡ no_notes }
    ensures runs { Runs (R.remaining reader.old) (R.remaining reader.new)
        (written_of (W.contents writer.old) buffers.old.out) (written_of (W.contents writer.new) buffers.new.out)
        result }
    ensures same_driver { (D.links client.new.driver ≡ D.links client.old.driver)
        × (D.time client.new.driver ≡ D.time client.old.driver) }
    ensures failed { result ≡ Err RunFault.LinkFault → 0 < D.failures client.new.driver }
    ensures well { OnOk result (D.failures client.new.driver ≤ D.failures client.old.driver) }
    ensures talk { Asks (D.pace (D.time client.old.driver)) (talker client.old.host.now.caller (D.queue client.old.driver))
        (talker client.new.host.now.caller (D.queue client.new.driver)) (R.remaining reader.old)
        (R.remaining reader.new) (written_of (W.contents writer.old) buffers.old.out)
        (written_of (W.contents writer.new) buffers.new.out) result }
    ensures noted { NotesRun (R.remaining reader.old)
        (written_of (W.contents writer.old) buffers.old.out)
        (written_of (W.contents writer.new) buffers.new.out) buffers.new.notes.bad_line
        buffers.new.notes.replies result }
{
    let mut lines: LineReader<KEPT_LEN> = LineReader::new(INPUT_LIMIT);
    let mut replied = 0;
    'reads: loop {
        'lines: while lines.cut() {
            let line = lines.line();
            if !ask_line(client, line, replied, buffers, writer)? {
                return Ok(ScriptEnd {
                    commands: replied + 1,
                    replied,
                });
            }
            replied += 1;
        }
        hand_on(&mut buffers.out, writer)?;
        wait_for_input::<P, D, R>(client, reader, &buffers.notes.replies)?;
        if !lines.refill(reader)? {
            break 'reads;
        }
    }
    if let Some(line) = lines.last() {
        if !ask_line(client, line, replied, buffers, writer)? {
            return Ok(ScriptEnd {
                commands: replied + 1,
                replied,
            });
        }
        replied += 1;
    }
    client.take_leave()?;
    Ok(ScriptEnd {
        commands: replied,
        replied,
    })
}

/// Takes turns until the reader has something to give, or there is no connection: then a read may
/// wait. The reader is shown what was noted of the replies.
fn wait_for_input<P: InputReady<R>, D: Driver, R: Read>(
    client: &mut Client<'_, D>,
    reader: &mut R,
    notes: &ReplyNotes,
) -> Result<(), NodeFault>
    ensures idles { OnOk result
        (Idles (D.pace (D.time client.old.driver)) (talker client.old.host.now.caller (D.queue client.old.driver))
        (talker client.new.host.now.caller (D.queue client.new.driver))) }
    ensures input { R.remaining reader.new ≡ R.remaining reader.old }
    ensures faults { IfErr result
        (IsTurnFault (D.stops (D.time client.old.driver)) (D.failures client.new.driver)) }
    ensures well { OnOk result (D.failures client.new.driver ≤ D.failures client.old.driver) }
    ensures same_driver { (D.links client.new.driver ≡ D.links client.old.driver)
        × (D.time client.new.driver ≡ D.time client.old.driver) }
{
    P::show(reader, notes);
    for turn in 0..u64::MAX {
        if client.is_over() {
            return Ok(());
        }
        if P::is_ready(reader) {
            return Ok(());
        }
        client.turn()?;
    }
    Ok(())
}

/// Asks the command that a line stands for, prints and notes its reply, and says whether it got one.
fn ask_line<D: Driver, W: Write>(
    client: &mut Client<'_, D>,
    line: &[u8],
    replied: u64,
    buffers: &mut ScriptBuffers,
    writer: &mut W,
) -> Result<bool, RunFault>
    requires few { replied ≤ INPUT_LIMIT }
    ensures wrong { (number : ℕ) → result ≡ Err (RunFault.BadScript number) →
        buffers.new.notes.bad_line ≡ Some (wrong_command line.now) }
    ensures asks { AsksLine (D.pace (D.time client.old.driver))
        (talker client.old.host.now.caller (D.queue client.old.driver))
        (talker client.new.host.now.caller (D.queue client.new.driver)) replied line.now
        (written_of (W.contents writer.old) buffers.old.out) (written_of (W.contents writer.new) buffers.new.out)
        result }
    ensures notes { NotesLine (written_of (W.contents writer.old) buffers.old.out)
        (written_of (W.contents writer.new) buffers.new.out) buffers.old.notes.replies
        buffers.new.notes.replies result }
    ensures same_driver { (D.links client.new.driver ≡ D.links client.old.driver)
        × (D.time client.new.driver ≡ D.time client.old.driver) }
    ensures failed { result ≡ Err RunFault.LinkFault → 0 < D.failures client.new.driver }
    ensures well { OnOk result (D.failures client.new.driver ≤ D.failures client.old.driver) }
{
    match read_command(line, &mut buffers.command) {
        Ok(()) => {}
        Err(wrong) => {
            buffers.notes.bad_line = Some(wrong);
            return Err(RunFault::BadScript(replied + 1));
        }
    }
    if !client.ask(buffers.command.as_slice(), &mut buffers.reply)? {
        buffers.notes.no_reply = Some(client.no_reply());
        print_none(&mut buffers.out, writer)?;
        return Ok(false);
    }
    print_reply(&mut buffers.out, writer, buffers.reply.as_slice())?;
    buffers.notes.replies.note(buffers.reply.as_slice());
    Ok(true)
}
