//! A client's calls on the one connection that it may have.
ghost use Rattle.std.specs.Prelude.{◌≡◌, ◌<◌};
ghost use Rattle.chaos_packet.specs.Outbox.{room_of, with_put};
ghost use Rattle.chaos_conn.specs.Act.{Finished, Read};
ghost use Rattle.chaos_conn.specs.Calls.{front_of};
ghost use Rattle.chaos_host.specs.Calls.{plain_reply_of};
ghost use Rattle.chaos_host.specs.View.{host_look};
ghost use Rattle.file_copy.specs.Talk.{taken};
ghost use Rattle.file_client.specs.Calls.{call_by, data_in_front, data_read, is_over, is_read};

use chaos_conn::ReadDone;
use chaos_file::Reply;
use chaos_host::{CallFault, ConnId, Host};
use chaos_packet::Outbox;

/// Reads the next item, where it is held, and says whether it is data, which are then left in the
/// caller's place: a copy from where they lie. What is no data is dropped. Where none are taken, no
/// clause says what the place holds.
pub(crate) fn take_reply(
    host: &mut Host,
    id: Option<ConnId>,
    out: &mut Outbox,
    reply: &mut Reply,
) -> bool
    requires { 0 < room_of out.old }
    ensures host { host.new ≡ (call_by host.old Read id).view }
    ensures out { out.new ≡ with_put out.old (call_by host.old Read id).packets }
    ensures read { taken result reply.new.items ≡ data_read (call_by host.old Read id).answer }
{
    let Some(id) = id else {
        return false;
    };
    let is_data = copy_front(host, id, reply);
    // An end that isn't open yet gives nothing, whatever lies in front.
    is_read(host.read_done(id, out)) && is_data
}

/// Copies the data in front of a connection, where there are any, and says so.
fn copy_front(host: &Host, id: ConnId, reply: &mut Reply) -> bool
    ensures { taken result reply.new.items
        ≡ data_in_front (host_look host.now id (λ conn. front_of conn)) }
{
    let Ok(Some(item)) = host.front(id) else {
        return false;
    };
    if !item.op.is_data() {
        return false;
    }
    reply.clear();
    let _fits = reply.try_extend_from_slice(item.bytes());
    true
}

/// Whether an item was read.
fn is_read(done: Result<ReadDone, CallFault>) -> bool
    ensures { result ≡ is_read (plain_reply_of Finished done) }
{
    matches!(done, Ok(ReadDone::Done))
}

/// Whether the connection has ended, or there is none.
pub(crate) fn is_over(host: &Host, id: Option<ConnId>) -> bool
    ensures { result ≡ is_over host.now id }
{
    let Some(id) = id else {
        return true;
    };
    match host.state(id) {
        Ok(state) => state.is_ended(),
        Err(_) => true,
    }
}
