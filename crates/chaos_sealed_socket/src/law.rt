//! The laws of a sealed socket.
ghost use Rattle.chaos_sealed_socket.specs.Law.{AnswersShorter, HasTheirDestination, LinkSealsWhatItSends, SealsWhatItSends};
ghost use Rattle.chaos_sealed_socket.specs.Run.{HandsUpOnce};
ghost use Rattle.chaos_sealed_socket.specs.SomeCalls.{HasOneDestination, SomethingIsAnswered, SomethingIsReceived, SomethingIsSent};

use chaos_link::{DatagramSocket, PeerKeeper};

/// The laws of what goes out of a sealed socket, and of a link over it, over the definitions alone.
pub fn law_sent<S: DatagramSocket, O, K: PeerKeeper>()
    // Whatever a sealed socket is asked, the socket beneath was asked to send two kinds of datagrams
    // alone. A datagram in clear is for no host with a key. Any other is sealed for one host, with
    // the host's key and in the own session, and its payload is for this host or empty. The later of
    // two datagrams for the same host has the greater counter.
    ensures socket { SealsWhatItSends O S.asked }
    // The same of a link over a sealed socket, whatever the link is asked.
    ensures link { LinkSealsWhatItSends O S.asked K.becomes }
    // What answers a datagram that asks for a hello is one datagram at most, which goes to where that
    // came from, and is shorter.
    ensures answers { AnswersShorter }
    // Of a datagram that carries packets to one destination alone, such as a load, the destination
    // is theirs. So no such packet goes out in clear to a host with a key.
    ensures destination { HasTheirDestination }
{}

/// The law of what a sealed socket hands up in a run, over the definitions alone.
pub fn law_received()
    // What is handed up of a seal was sealed by its host for this run of the receiver, each datagram
    // at most once. The sessions of a host never go back, and within a session each datagram lies
    // fewer than 256 behind each one handed up before. What is handed up as it came carries packets
    // of hosts alone that are heard in clear. The one premise is that without the key nobody makes a right tag.
    ensures { HandsUpOnce }
{}

/// The law that the premises of [`law_received`] and [`law_sent`] can be met, whatever the key is.
pub fn law_calls()
    // A socket has heard nothing and makes five calls. A request comes under seal and is handed up.
    // Its copy is refused, and a request in clear is passed up. The socket sends a request under
    // seal and another in clear. Nobody else makes a right tag.
    ensures received { SomethingIsReceived }
    // A socket is asked to send two requests. The socket beneath is asked to send one under seal and
    // the other in clear. A link over such a socket is asked to send one request.
    ensures sent { SomethingIsSent }
    // A request for another session of the receiver is answered by a hello.
    ensures answers { SomethingIsAnswered }
    // The datagram of a request carries packets to one host alone.
    ensures destination { HasOneDestination }
{}
