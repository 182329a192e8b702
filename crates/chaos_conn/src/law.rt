//! Laws of a connection: of its names, of those that are over, and of what it holds. A law is a
//! function that does nothing: its contract is the law, and a caller learns it by the call.
ghost use Rattle.chaos_conn.specs.Held.{HeldStays, HeldIsRead};
ghost use Rattle.chaos_conn.specs.Names.{ActsAlike, ComesAlike, ForeignIsQuiet, OverStays, RefusedIsSame, EndsAreOver, PutsItsNames, ConfigStays, NamesStay, OpensOrStays};

/// The laws of a connection's names. They are its own address and index, and its peer's.
pub fn law_names()
    // Connections that differ in their names alone do the same in each call of a user and each
    // tick, except for the names on their packets.
    ensures acts { ActsAlike }
    // Such connections also do the same with each packet that carries an acknowledgement under
    // their names.
    ensures comes { ComesAlike }
    // Each packet that a connection puts out carries its names.
    ensures puts { PutsItsNames }
    // Names stay, except where a connection begins or is closed, and where a packet comes.
    ensures stays { NamesStay }
    // Where a packet comes, names stay too, except for the OPN that opens the connection: its
    // source index is the peer's from then on.
    ensures comes_in { OpensOrStays }
{}

/// The law of packets without an acknowledgement, and of packets with other names.
pub fn law_foreign()
    // A packet without an acknowledgement, or with other names, is heard at most, or is answered by
    // a status, or ends the connection. What is held, kept and counted stays, except where a
    // waiting request is lost.
    ensures { ForeignIsQuiet }
{}

/// The laws of connections that are over, and of calls that change nothing.
pub fn law_over()
    // A connection that isn't live and has nothing to read stays so, and puts nothing out, until
    // another connection begins.
    ensures stays { OverStays }
    // A call that is refused changes nothing.
    ensures refused { RefusedIsSame }
    // The calls by which a user ends a connection leave it over, or change nothing.
    ensures ends { EndsAreOver }
    // No call changes a configuration.
    ensures config { ConfigStays }
{}

/// The laws of what an end holds once it has met its peer.
pub fn law_held()
    // Whatever comes and is called, each item stays where it is held until it is read or the user
    // closes.
    ensures stays { HeldStays }
    // A read hands out the item in front, and then each other item is one place nearer.
    ensures reads { HeldIsRead }
{}
