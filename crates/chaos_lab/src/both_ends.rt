//! Both ends of the laboratory.
ghost use Rattle.std.specs.Prelude.{◌≡◌, ◌≤◌, OnOk};
ghost use Rattle.chaos_lab.specs.Calling.{call_of, told_of};
ghost use Rattle.chaos_lab.specs.Inside.{end_view, happening_of, HasRoomAt, AreReady};
ghost use Rattle.chaos_lab.specs.Makes.{MakesAt, read_at};

use crate::event::{Event, StepDone};
use crate::fault::LabFault;
use crate::lab_end::LabEnd;
use crate::side::Side;
use crate::target::Target;
use chaos_packet::{Outbox, Packet};
use std::alloc::AllocError;

/// Both ends. A call at one of them leaves the other as it is.
#[derive(Drop)]
pub(crate) struct BothEnds {
    pub(crate) a: LabEnd,
    pub(crate) b: LabEnd,
}

impl BothEnds {
    /// Makes room for one more item in both lists of an end.
    pub(crate) fn grow(&mut self, side: Side) -> Result<(), AllocError>
        ensures same { (end_view self.new.a ≡ end_view self.old.a)
            × (end_view self.new.b ≡ end_view self.old.b) }
        ensures room { OnOk result (HasRoomAt side self.new) }
    {
        match side {
            Side::A => self.a.grow(),
            Side::B => self.b.grow(),
        }
    }

    /// Makes the call of an event at one of them.
    pub(crate) fn call(
        &mut self,
        target: Target,
        event: &Event<'_>,
        came: &Packet,
        now: u64,
        out: &mut Outbox,
    ) -> Result<StepDone, LabFault>
        requires ready { AreReady target.side self.old out.old }
        ensures { MakesAt target.side (call_of (happening_of event.now) target.asks came.now now)
            self.old self.new out.old out.new
            (told_of (happening_of event.now) came.now (read_at target.side self.new) result) }
    {
        match target.side {
            Side::A => self.a.call(event, target.asks, came, now, out),
            Side::B => self.b.call(event, target.asks, came, now, out),
        }
    }
}
