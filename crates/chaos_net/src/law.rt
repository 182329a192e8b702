//! The laws of two hosts on one network. A law is a function that does nothing: its contract is the
//! law, and a caller learns it by the call.
ghost use Rattle.std.specs.Prelude.{◌≡◌};
ghost use Rattle.chaos_lab.specs.declared.side.Side.{Side};
ghost use Rattle.chaos_net.specs.Apart.{ChangesPeerAlone, BareAddsNothing};
ghost use Rattle.chaos_net.specs.Hello.{SomethingIsRead};
ghost use Rattle.chaos_net.specs.InTurn.{ReadsInTurn};
ghost use Rattle.chaos_net.specs.Lasting.{StoriesLast};
ghost use Rattle.chaos_net.specs.Net.{Net, Name, Holds, NetworkLaw};
ghost use Rattle.chaos_net.specs.Played.{ArePlayed};
ghost use Rattle.chaos_net.specs.Present.{NamedIsPresent, ReadsAreTold, FrontIsTold, WritesAreTold};
ghost use Rattle.chaos_net.specs.Short.{ShortLaw};
ghost use Rattle.chaos_net.specs.TwoConnections.{CallsAreTaken, ItemComes, OtherIsThere};

/// The law of the network. It asks for one thing: a packet that carries an acknowledgement comes
/// while it is fresh. The network may lose, repeat, reorder and delay.
pub fn law_network()
    // After every run of two hosts on one network, the law holds of each connection of either host,
    // present or past. What its user has read is a prefix of what the user of its peer has written.
    // The peer is a connection of the other host, and both name each other. Otherwise this
    // connection was asked, its peer was opened by another connection or by none yet, and it has
    // read no more than the request. A connection that asked and wasn't opened has read nothing.
    ensures { NetworkLaw }
{}

/// What `law_network` rests on.
pub fn law_net_holds()
    // The law of the network holds where a laboratory plays each pair of connections.
    ensures { (n : Net) (x : Side) (name : Name) → ArePlayed n → Holds n x name }
{}

/// An item that came is read in its turn.
pub fn law_in_turn()
    // Item i of a connection came to its peer, which was open, inside the window that the peer
    // announced. Then a read of the peer hands the item out once all items before it are read. So
    // it is whatever happened since, until the peer's user closes.
    ensures { ReadsInTurn }
{}

/// How stories last.
pub fn law_lasting()
    // Whatever happens, no story is lost, both lists of a story grow at their ends alone, and a
    // peer that is known never changes.
    ensures { StoriesLast }
{}

/// No packet of one connection changes another.
pub fn law_apart()
    // A fresh packet that carries an acknowledgement changes its sender's peer alone.
    ensures peer { ChangesPeerAlone }
    // Every other packet, of whatever age, adds nothing to any connection. It may end a connection,
    // or begin one.
    ensures bare { BareAddsNothing }
{}

/// What a caller of a host holds is what the stories say.
pub fn law_present()
    // An own index names the connection whose story has that index, and whose end is what the host
    // shows.
    ensures named { NamedIsPresent }
    // What a read hands out joins what its connection has read.
    ensures reads { ReadsAreTold }
    // What was shown in front joins it too, where a read hands nothing out.
    ensures front { FrontIsTold }
    // What a write takes joins what its connection has written.
    ensures writes { WritesAreTold }
{}

/// Short runs need no premise on the age of packets.
pub fn law_short()
    // Whatever at most 256 events make of two new hosts is reached: each packet is fresh there.
    ensures { ShortLaw }
{}

/// The law isn't empty.
pub fn law_reached()
    // Eight events lead from two new hosts to a net in which a request and data were read.
    ensures { SomethingIsRead }
{}

/// The law that the premises of the laws of connections can be met: of [`law_in_turn`],
/// [`law_apart`], [`law_present`] and [`law_net_holds`].
pub fn law_two_connections()
    // Ten events lead to a net of two hosts with two connections each. An item comes to a
    // connection inside its window, and is the next that its user reads.
    ensures item { ItemComes }
    // The host has another connection, which isn't the peer of the item's sender. A request may
    // come again.
    ensures other { OtherIsThere }
    // Once the item has come, the host shows the item and hands it out. The other host takes a
    // write.
    ensures calls { CallsAreTaken }
{}
