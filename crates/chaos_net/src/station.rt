//! A station of a running net.
ghost use Rattle.std.specs.Prelude.{◌≡◌, ◌≤◌, length};
ghost use Rattle.chaos_window.specs.declared.limits.TheConstants.{MAX_WINDOW};
ghost use Rattle.chaos_host.specs.Slot.{place_of};
ghost use Rattle.chaos_net.specs.Kept.{before, after, alter, seat_in, AreBelow};
ghost use Rattle.chaos_net.specs.Inside.{HasSpace, Settles};

use crate::desk::Desk;
use crate::kept_sent::KeptSent;
use crate::mark::Mark;
use crate::seat::Seat;
use chaos_host::{ConnId, Host};

/// A host, its slots as the net knows them, and all that it ever sent.
#[derive(Drop)]
pub(crate) struct KeptStation {
    pub(crate) host: Host,
    pub(crate) seats: Vec<Seat>,
    /// The oldest first.
    pub(crate) sent: Vec<KeptSent>,
}

impl KeptStation {
    /// Notes what an event made of a slot, and takes what the host put out into what was sent: by
    /// the connection in that slot, or by the host itself.
    pub(crate) fn settle(&mut self, desk: &mut Desk, place: Option<usize>, mark: Mark)
        requires few { length desk.old.out.packets ≤ MAX_WINDOW }
        requires space { HasSpace self.old.sent desk.old }
        requires turns { AreBelow desk.old.events self.old.seats.items }
        ensures { Settles self.old self.new desk.old desk.new place mark }
    {
        let seat = begin(&mut self.seats, place, mark);
        desk.post(&mut self.sent, seat);
        end(&mut self.seats, place, mark, desk.events);
    }
}

/// Gives a seat its mark before its connection sends, and tells it.
fn begin(seats: &mut Vec<Seat>, place: Option<usize>, mark: Mark) -> Option<Seat>
    ensures seats { seats.new.items ≡ alter (before mark) seats.old.items place }
    ensures seat { result ≡ seat_in (alter (before mark) seats.old.items place) place }
{
    let place = place?;
    let seat = seats.get(place).copied()?.before(mark);
    seats[place] = seat;
    Some(seat)
}

/// Gives a seat its mark after that.
fn end(seats: &mut Vec<Seat>, place: Option<usize>, mark: Mark, events: u64)
    requires { AreBelow events seats.old.items }
    ensures { seats.new.items ≡ alter (after mark) seats.old.items place }
{
    let Some(place) = place else {
        return;
    };
    let Some(seat) = seats.get(place).copied() else {
        return;
    };
    seats[place] = seat.after(mark, events);
}

/// The place that an own index names.
pub(crate) fn place_of(id: ConnId) -> usize
    ensures { result ≡ place_of id }
{
    usize::from(id.0 % 256).saturating_sub(1)
}
