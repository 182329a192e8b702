//! Laws of a host's table. A law is a function that does nothing: its contract is the law, and a
//! caller learns it by the call.
ghost use Rattle.chaos_host.specs.Deeds.{HasDeeds, StaysHost};
ghost use Rattle.chaos_host.specs.Law.{StaysInUse, IndexNames, IndexIsOf, TakesOne, PendingStays};

/// The law of slots in use. Only an answer, a rejection, a close or a release frees a slot,
/// whatever packets, calls and moments come, and each of them moves the slot's generation on.
pub fn law_in_use()
    // A connection in use stays in use in each call of `act` other than an answer, a rejection and
    // a close.
    ensures { StaysInUse }
{}

/// The law of own indices. So a call is `NoSuchConnection` exactly if no slot in use has the index.
pub fn law_index()
    // In a table of at most 255 slots an own index names the slot in use that has it.
    ensures names { IndexNames }
    // An own index names no other slot.
    ensures named { IndexIsOf }
{}

/// The law of requests that wait for their user.
pub fn law_pending()
    // A new or closed connection that takes a request stores that one item.
    ensures takes { TakesOne }
    // A call after which the request still waits changes nothing of what is stored.
    ensures stays { PendingStays }
{}

/// The law of what each step of a host is to its connections. A step is a packet that comes, a
/// user's call or a tick.
pub fn law_deeds()
    // A step is one call of the connection in one slot, and no other slot changes. Or no connection
    // does anything, and the host sends no more than a refusal of its own.
    ensures deeds { HasDeeds }
    // After a step the host is still as `IsHost` says.
    ensures host { StaysHost }
{
    chaos_conn::law_over();
}
