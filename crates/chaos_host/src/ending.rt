//! The release of an ended connection.
ghost use Rattle.std.specs.Prelude.{◌≡◌, ◌<◌};
ghost use Rattle.chaos_packet.specs.Outbox.{room_of};
ghost use Rattle.chaos_host.specs.Acted.{HostDoes};
ghost use Rattle.chaos_host.specs.Calls.{host_release};

use crate::fault::CallFault;
use crate::host::Host;
use crate::index::ConnId;
use crate::slots::named_mut;
use chaos_packet::Outbox;

impl Host {
    /// Frees the slot of an ended connection.
    ///
    /// Refused, in this order: `NoSuchConnection` where no connection has this index; `StillActive`
    /// where it hasn't ended. Nothing changes then.
    pub fn release(&mut self, id: ConnId, out: &mut Outbox) -> Result<(), CallFault>
        requires { 0 < room_of out.old }
        // A slot in an ended state is released, and no other slot changes.
        ensures does { HostDoes self.old 1 (host_release self.old id)
            self.new out.old out.new result }
        // Nothing is sent.
        ensures quiet { out.new ≡ out.old }
    {
        let slot = named_mut(&mut self.slots, id)?;
        if !slot.conn.state().is_ended() {
            return Err(CallFault::StillActive);
        }
        let _ = slot.conn.close(b"", out);
        self.in_use.set(id.place(), slot.end_call());
        Ok(())
    }
}
