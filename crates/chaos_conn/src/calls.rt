//! The user's calls: writing, reading, announcing a window and closing.
ghost use Rattle.std.specs.Prelude.{◌≡◌, ◌+◌, ◌<◌, ◌≤◌, length, IfSome};
ghost use Rattle.chaos_packet.specs.Opcode.{kind_of};
ghost use Rattle.chaos_packet.specs.Outbox.{room_of};
ghost use Rattle.chaos_window.specs.Receive.{item_at};
ghost use Rattle.chaos_conn.specs.View.{moment};
ghost use Rattle.chaos_conn.specs.Acted.{Acts, ActsQuietly, map_answer};
ghost use Rattle.chaos_conn.specs.Calls.{most_bytes, write_item, read_at_open, read_at_end, with_reads_told, done_of};
ghost use Rattle.chaos_conn.specs.Act.{Write, Unc, Read, FinishRead, Announce, Close, Did, Wrote, Gave, Finished, Does};

use crate::answers::{ReadDone, ReadEnd};
use crate::conn::Conn;
use crate::fault::ConnFault;
use chaos_packet::{Kind, MAX_DATA, Opcode, Outbox, PktNum};

impl Conn {
    /// Writes data, or an EOF, and returns its number. [`Conn::can_write`] says beforehand whether
    /// the window has room.
    ///
    /// `BadOp`: the opcode is neither data nor EOF. `TooLong`: data of more than 488 bytes, or an
    /// EOF with bytes. `Full`: the window is full.
    pub fn write(
        &mut self,
        op: Opcode,
        bytes: &[u8],
        now: u64,
        out: &mut Outbox,
    ) -> Result<PktNum, ConnFault>
        requires { 0 < room_of out.old }
        // Data or an EOF is numbered, kept and sent, or refused with the first of NotOpen, BadOp,
        // TooLong and Full. A refused write changes nothing.
        ensures { Does self.old (Write op bytes.now now) self.new out.old out.new (Wrote result) }
    {
        if !self.state.is_open() {
            return Err(ConnFault::NotOpen);
        }
        let Some(most) = most_bytes(op.kind()) else {
            return Err(ConnFault::BadOp);
        };
        if bytes.len() > most {
            return Err(ConnFault::TooLong);
        }
        self.write_item(op, bytes, now, out)
    }

    /// Writes an item where the window has room.
    fn write_item(
        &mut self,
        op: Opcode,
        bytes: &[u8],
        now: u64,
        out: &mut Outbox,
    ) -> Result<PktNum, ConnFault>
        requires room { 0 < room_of out.old }
        requires fits { length bytes.now ≤ MAX_DATA }
        ensures { Acts self.old
            (write_item self.old (record { op = op; body = bytes.now }) (moment self.old now))
            self.new out.old out.new result }
    {
        if !self.has_window() {
            return Err(ConnFault::Full);
        }
        self.last = self.last.max(now);
        self.untold = 0;
        self.send_item(op, bytes, out);
        Ok(self.send.last())
    }

    /// Sends uncontrolled data, which may be lost.
    ///
    /// Refused, in this order: `NotOpen`; `TooLong` for more than 488 bytes.
    pub fn unc(&mut self, bytes: &[u8], out: &mut Outbox) -> Result<(), ConnFault>
        requires { 0 < room_of out.old }
        // Uncontrolled data is sent and kept nowhere. The end itself never changes.
        ensures { Does self.old (Unc bytes.now) self.new out.old out.new (Did result) }
    {
        if !self.state.is_open() {
            return Err(ConnFault::NotOpen);
        }
        if bytes.len() > MAX_DATA {
            return Err(ConnFault::TooLong);
        }
        self.put_untelling(Opcode::UNC, bytes, out);
        Ok(())
    }

    /// Announces another window: so many items past those that were read are taken from now on.
    /// When an end opens, it announces the configuration's receive window. Items that are held past
    /// a smaller window can still be read.
    ///
    /// The STS may be lost, and an older STS may come late: the peer uses the window that came
    /// last. If it sends too far, its items are `Outside` here, and it sends them again.
    ///
    /// Only an STS or an OPN carries a window. A peer whose window is 0 and that keeps nothing
    /// sends nothing again, and it probes only after it heard nothing for `probe`. So if the STS
    /// that opens its window is lost, and this end goes on sending, the peer's writes stay `Full`.
    /// Announce again, now and then, until the peer sends: each announcement sends an STS.
    ///
    /// Refused, in this order: `NotOpen`; `BadWindow` for more than the configuration's receive
    /// window.
    pub fn announce(&mut self, window: u16, out: &mut Outbox) -> Result<(), ConnFault>
        requires { 0 < room_of out.old }
        // An open end's window becomes another, at most its greatest, and one STS carries the
        // window to the peer. What the end holds stays. A refused call changes nothing.
        ensures { Does self.old (Announce window) self.new out.old out.new (Did result) }
    {
        if !self.state.is_open() {
            return Err(ConnFault::NotOpen);
        }
        if window > self.config.recv_cap() {
            return Err(ConnFault::BadWindow);
        }
        self.recv.set_window(window);
        self.put_sts(out);
        Ok(())
    }

    /// Gives the connection up, in any state. An open end, and an end that holds a request, sends a
    /// CLS with the text.
    pub fn close(&mut self, text: &[u8], out: &mut Outbox) -> Result<(), ConnFault>
        requires { 0 < room_of out.old }
        // A close sends a CLS where the peer has to know of it. Then the end is as new except for
        // its moments, and its window is the greatest again. A text of more than 488 bytes is
        // refused with `TooLong`, and nothing changes.
        ensures { Does self.old (Close text.now) self.new out.old out.new (Did result) }
    {
        if text.len() > MAX_DATA {
            return Err(ConnFault::TooLong);
        }
        if self.state.tells_close() {
            self.put_untelling(Opcode::CLS, text, out);
        }
        self.reset();
        Ok(())
    }

    /// Reads the next item, where it is held, and hands it out. [`Conn::front`] and
    /// [`Conn::read_done`] read without a copy.
    ///
    /// In RfcSent and RfcReceived there is nothing to read, whatever is held. An end that isn't
    /// live returns its state once no next item is held.
    pub fn read(&mut self, out: &mut Outbox) -> ReadEnd
        requires { 0 < room_of out.old }
        // The next item is handed out exactly where it can be read. An open end sends an STS
        // exactly once its unreported reads come to a third of the window that it announces: at
        // each read where that window is 0.
        ensures { Does self.old Read self.new out.old out.new (Gave result) }
    {
        if self.state.is_opening() {
            return ReadEnd::Nothing;
        }
        if self.state.is_open() {
            return self.read_at_open(out);
        }
        self.read_at_end()
    }

    /// Reads at an open end.
    fn read_at_open(&mut self, out: &mut Outbox) -> ReadEnd
        requires { 0 < room_of out.old }
        ensures { Acts self.old (read_at_open self.old (item_at self.old.recv 1))
            self.new out.old out.new result }
    {
        let Some(item) = self.recv.advance() else {
            return ReadEnd::Nothing;
        };
        self.count_read(out);
        ReadEnd::Item(item)
    }

    /// Counts an item that was read at an open end, and sends a status once a third of the window
    /// was read without one.
    fn count_read(&mut self, out: &mut Outbox)
        requires { 0 < room_of out.old }
        ensures { Acts self.old
            (with_reads_told (record self.old { untold = self.old.untold + 1 }) result)
            self.new out.old out.new result }
    {
        if 3 * (self.untold + 1) >= self.recv.window() {
            self.put_sts(out);
        } else {
            self.untold += 1;
        }
    }

    /// Reads at an end that isn't live.
    fn read_at_end(&mut self) -> ReadEnd
        ensures { ActsQuietly self.old (read_at_end self.old (item_at self.old.recv 1))
            self.new result }
    {
        match self.recv.advance() {
            Some(item) => ReadEnd::Item(item),
            None => ReadEnd::Ended(self.state),
        }
    }

    /// Reads the next item, where it is held, and drops it where it lies. [`Conn::front`] lends the
    /// item beforehand.
    pub fn read_done(&mut self, out: &mut Outbox) -> ReadDone
        requires { 0 < room_of out.old }
        // The end changes as by `read`, and the item isn't handed out.
        ensures { Does self.old FinishRead self.new out.old out.new (Finished result) }
    {
        if self.state.is_opening() {
            return ReadDone::Nothing;
        }
        if self.state.is_open() {
            return self.read_done_at_open(out);
        }
        self.read_done_at_end()
    }

    /// Reads at an open end, and hands nothing out.
    fn read_done_at_open(&mut self, out: &mut Outbox) -> ReadDone
        requires { 0 < room_of out.old }
        ensures { Acts self.old
            (map_answer done_of (read_at_open self.old (item_at self.old.recv 1)))
            self.new out.old out.new result }
    {
        if !self.recv.discard() {
            return ReadDone::Nothing;
        }
        self.count_read(out);
        ReadDone::Done
    }

    /// Reads at an end that isn't live, and hands nothing out.
    fn read_done_at_end(&mut self) -> ReadDone
        ensures { ActsQuietly self.old
            (map_answer done_of (read_at_end self.old (item_at self.old.recv 1)))
            self.new result }
    {
        if self.recv.discard() {
            ReadDone::Done
        } else {
            ReadDone::Ended(self.state)
        }
    }
}

/// How many bytes a user may write with an opcode of this kind.
fn most_bytes(kind: Kind) -> Option<usize>
    ensures value { result ≡ most_bytes kind }
    ensures fits { IfSome result (λ most. most ≤ MAX_DATA) }
{
    match kind {
        Kind::Data => Some(MAX_DATA),
        Kind::Eof => Some(0),
        _ => None,
    }
}
