//! The laws of a server's turns, of two programs, and of an engine and a server. A law is a
//! function that does nothing. Its contract states the law, and a caller learns the law by the
//! call.
ghost use Rattle.chaos_file.specs.Store.{Files, change};
ghost use Rattle.chaos_link.specs.Link.{Asks};
ghost use Rattle.chaos_net.specs.System.{NewSystemsStand, SystemsHold, SystemsStay};
ghost use Rattle.file_client.specs.declared.timing.Timing.{Timing};
ghost use Rattle.file_client.specs.Pace.{clock_pace};
ghost use Rattle.file_end_to_end.specs.FileGot.{FileIsGot};
ghost use Rattle.file_end_to_end.specs.Program.{ClientTurnsAreSteps, Program, ServerTurnsAreSteps, program_host, program_turns, program_upon};
ghost use Rattle.file_end_to_end.specs.Server.{ServerTurnsAreFileRuns};
ghost use Rattle.file_end_to_end.specs.System.{FileSystemsServe, FileSystemsHold, FileSystemsStay, NewFileSystemsStand};
ghost use Rattle.file_end_to_end.specs.Turns.{ServerRunsAreRuns, ServerTurnsAreRuns};
ghost use Rattle.file_end_to_end.specs.TwoClients.{TwoAreServed};
ghost use Rattle.file_end_to_end.specs.Beginning.{SessionsBegin};
ghost use Rattle.file_end_to_end.specs.Over.{OperationsAreDone, SessionsAreDone};
ghost use Rattle.file_end_to_end.specs.Young.{YoungIsFresh};
ghost use Rattle.file_end_to_end.specs.World.{ConnectionsAreAsked, ConnectionsOpen, WorldsBegin, WorldsLast};

use chaos_file::Store;
use chaos_link::Link;
use chaos_net::law_network;
use chaos_node::ReadableClock;
use file_client::{Client, ClockDriver};
use file_copy::Talk;

/// The law of the turns of a server, on the network. Let the other host have sent each packet that
/// came, and let each packet be fresh.
pub fn law_file_turns<L: Link, S: Store>()
    // A turn of a server is a run of the network's events. The run leads to a net that has the host
    // after the turn. This side has sent exactly what went out, in order, whatever the store does.
    ensures turns { ServerTurnsAreRuns (change S.contents S.may_give S.count) }
    // The same holds for each turn over a link, as the contracts of `run_turn` and `Server::turn`
    // describe the turn, for however long the server serves a peer that acknowledges nothing, and
    // whatever its timers are.
    ensures runs { (old new : L) → ServerRunsAreRuns (change S.contents S.may_give S.count)
        (Asks (L.asked old) (L.asked new)) }
{}

/// The law of two programs and the datagrams between them. Each program is a client or a server of
/// FILE. A datagram may be lost, late, repeated or out of order.
pub fn law_programs<L: Link, S: Store>()
    // There is a net behind two new programs.
    ensures begin { NewSystemsStand {P = Program S} program_host }
    // There is a net behind the programs after any number of turns and owners' calls, while each
    // packet that comes is fresh.
    ensures stay { SystemsStay program_host program_upon
        (program_turns (change S.contents S.may_give S.count)) }
    // The law of the network holds for each such net.
    ensures law { SystemsHold {P = Program S} program_host }
    // A turn of a client over any link with any timers, as the contract of `client_turn`,
    // `timed_client_turn` or `Node::turn` describes the turn, is such a step. What the step posts is
    // what the link was asked to send.
    ensures clients { (old new : L) → ClientTurnsAreSteps (change S.contents S.may_give S.count)
        (Asks (L.asked old) (L.asked new)) }
    // The same holds for a turn of a server, as the contracts of `run_turn` and `Server::turn`
    // describe the turn.
    ensures servers { (old new : L) → ServerTurnsAreSteps (change S.contents S.may_give S.count)
        (Asks (L.asked old) (L.asked new)) }
{
    law_network();
}

/// The law of the turns of a server, in the file net. Let A have sent each packet that came, and
/// let each packet be fresh.
pub fn law_server_turns<S: Store>()
    // A turn of a server of FILE is a run of events of the file net. The run leads to a file net
    // that has the server's host, files and sessions after the turn. B has sent exactly what went
    // out, in order, and A did nothing.
    ensures { ServerTurnsAreFileRuns S.contents S.may_give S.count }
{}

/// The law of a client host, a server of FILE and the datagrams between the two. A datagram may be
/// lost, late, repeated or out of order.
pub fn law_file_systems<S: Store>()
    // There is a file net behind a new client and a new server.
    ensures begin { (m : Files) → NewFileSystemsStand S.contents S.may_give S.count m }
    // There is a file net behind the client and the server after any number of turns and calls of
    // A's users, while each packet that comes is fresh.
    ensures stay { (m : Files) → FileSystemsStay S.contents S.may_give S.count m }
    // One history for all clients of a running server: the law of file_net holds for each such file
    // net.
    ensures law { (m : Files) → FileSystemsHold S.contents S.may_give S.count m }
    // A file that a client gets is the file that the server had, and a file that a client puts is
    // there, whole. A file that a client deletes is gone, and a file that a client renames has moved.
    // This holds for each client of a running server that sent LOGIN and then the commands of
    // operations, and has read all replies.
    ensures operations { (m : Files) → FileSystemsServe S.contents S.may_give S.count m }
{}

/// The law from a client's engine to the files: an engine and a server of FILE at their links, and
/// the datagrams between the two. A datagram may be lost, late, repeated or out of order.
pub fn law_world<C: ReadableClock, S: Store>()
    // There is a file net behind a new engine that asks for FILE and a new server, each of which
    // passed over some indices. What the connections sent that were given up for that counts as
    // posted and lost. By `stay` of `law_file_systems` there is a file net after all their turns.
    ensures begin { (m : Files) → WorldsBegin S.contents m }
    // When the engine asks for a connection, or closes its connection, a run of events leads to a
    // file net that is behind the engine and the server after that.
    ensures asked { (m : Files) → ConnectionsAreAsked S.contents m }
    // A connection that the engine's host shows open, and that the engine asked for, has a name,
    // and a connection of the server serves it.
    ensures opened { (m : Files) → ConnectionsOpen S.contents m }
    // From such a connection on there is a file net behind engine and server, in which the
    // connection is still there. It is there whatever moves the engine, the server and the network
    // make, while each packet that comes is fresh. Let the engine have written exactly the commands
    // of an operation, and have read exactly the replies. Then the operation is done, and the user is
    // idle again. A get has the bytes that the store had at the path when the OPEN was served. A put
    // put exactly its bytes at the path when the CLOSE was served, and by the CLOSE alone. A DELETE
    // took the file away, and a RENAME moved the file, when the command was served. A user who first
    // wrote LOGIN and has read the reply is idle. If the engine wrote LOGIN and then exactly the
    // commands of operations, and nothing before, all these operations are done.
    ensures last { (m : Files) (clock : C) (timing : Timing) →
        WorldsLast S.contents S.may_give S.count m (clock_pace (C.shows clock) timing) }
{}

/// The law from the contracts of file_transfer, over a client, to the files. The contracts say what
/// was sent and received since a state of the client, and how the client came to that state.
pub fn law_done<C: ReadableClock, L: Link, S: Store>()
    // Take a session of a client whose engine is new, and a new world of that engine. From the call
    // on that asked for the connection, engine, server and network may do anything, while each packet
    // that comes is fresh. If no OPN comes for long, the engine may ask for another connection. Once
    // the engine took the steps of the session, a connection of the server serves the engine's
    // connection. The server then served exactly the commands of the session, each once and in order,
    // and all operations are done, as `worlds` says.
    ensures begins { SessionsBegin {S = S} C.shows L.queue L.asked S.contents S.may_give S.count
        ⟦<Client<'static, ClockDriver<'static, 'static, C, L>> as Talk>⟧.talked
        ⟦<Client<'static, ClockDriver<'static, 'static, C, L>> as Talk>⟧.connects }
    // Take a session, from the call that asked for its connection on, and each world in which the
    // server serves that connection and the engine takes the steps of the session. There each get has
    // the bytes that the store had at the path when the OPEN was served. Each put put exactly its
    // bytes at the path when the CLOSE was served, and by the CLOSE alone. Each DELETE took the file
    // away, and each RENAME moved the file, when the command was served. The server and the network
    // may do anything meanwhile.
    ensures worlds { SessionsAreDone {S = S}
        ⟦<Client<'static, ClockDriver<'static, 'static, C, L>> as Talk>⟧.talked
        ⟦<Client<'static, ClockDriver<'static, 'static, C, L>> as Talk>⟧.connects C.shows L.queue
        L.asked S.contents S.may_give S.count }
    // The same holds of a single operation by an idle user. The user is idle again afterwards.
    ensures each { OperationsAreDone {S = S}
        ⟦<Client<'static, ClockDriver<'static, 'static, C, L>> as Talk>⟧.talked
        ⟦<Client<'static, ClockDriver<'static, 'static, C, L>> as Talk>⟧.connects C.shows L.queue
        L.asked S.contents S.may_give S.count }
{}

/// The law that the laws of systems aren't empty.
pub fn law_two_clients()
    // Over any files, sixteen steps serve two clients, over datagrams of which some come late,
    // repeated or out of order, and some never come. The history has both commands in the order in
    // which they were served.
    ensures { (m : Files) → TwoAreServed m }
{}

/// The law that the laws of an engine and a server, and of a whole session, aren't empty.
pub fn law_world_gets()
    // Over any files, a new engine and a new server take 45 moves, in which the engine puts a file
    // of two bytes and gets the file. The engine asks for FILE, the connection opens, the user logs
    // in, and the engine writes the commands of both copies and reads the replies. Of the datagrams
    // some come late, one comes again, and one that never comes is sent again after 500 ms. All
    // premises of `law_world` hold on the way, and by its conclusion both copies are made. The same
    // moves are one session, from the call that asked for the connection on. All premises of `begins`
    // of `law_done` hold, and by its conclusion the session is finished.
    ensures { (m : Files) → FileIsGot m }
{}

/// The law of young hosts.
pub fn law_young()
    // While no slot of two hosts had more than 255 connections before its present one, and neither
    // host sent more than 32,000 packets, each packet that comes is fresh. So a short session needs
    // no premise on the age of packets.
    ensures { YoungIsFresh }
{}
