//! B's server.
ghost use Rattle.std.specs.Prelude.{◌≡◌};
ghost use Rattle.file_lab.specs.Serving.{ServesBy, turned_by};
ghost use Rattle.chaos_file.specs.ServeWork.{work_of};

use chaos_conn::Conn;
use chaos_file::{MemStore, Served, Session, law_reply_taken, serve_conn};
use chaos_lab::{Turned, User};
use chaos_packet::Outbox;
use std::alloc::Global;

/// A session and its store, and what became of the last turn.
#[derive(Drop)]
pub(crate) struct Server {
    pub(crate) session: Session,
    pub(crate) store: MemStore,
    pub(crate) served: Served,
}

impl User for Server {
    ghost may_turn = { λ s t v now turn. ServesBy (record { session = s.session; files = s.store })
        (record { session = t.session; files = t.store }) turn t.served (work_of v) };

    fn turn(&mut self, alloc: Global, conn: &mut Conn, now: u64, out: &mut Outbox) -> Turned {
        law_reply_taken();
        self.served = serve_conn(alloc, conn, &mut self.session, &mut self.store, now, out);
        turned_by(self.served)
    }
}

/// The turn that was taken.
fn turned_by(served: Served) -> Turned
    ensures { result ≡ turned_by served }
{
    match served {
        Served::Replied => Turned::Replied,
        Served::Eof => Turned::Read,
        _ => Turned::Rested,
    }
}
