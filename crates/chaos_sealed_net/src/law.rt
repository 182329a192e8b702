//! The laws of two hosts whose datagrams are sealed. A law is a function that does nothing. Its
//! contract states the law, and a caller learns the law by the call.
ghost use Rattle.chaos_sealed_net.specs.SealedHello.{SomethingSealedIsRead};
ghost use Rattle.chaos_sealed_net.specs.SealedNet.{SealedNetworkLaw, SealedRunsAreRuns};
ghost use Rattle.chaos_sealed_net.specs.SealedNodes.{SealedNodesStay};
ghost use Rattle.chaos_sealed_net.specs.SealedNodesHello.{SomethingIsReadBySealedNodes};

/// The law of freshness.
pub fn law_fresh()
    // Every run of the sealed machine from two new hosts is a run of the network. So each packet
    // that comes is fresh: neither end has written 32,640 items since the packet was sent.
    ensures runs { SealedRunsAreRuns }
    // The law of the network holds after every such run, for each connection of either host: what
    // its user has read is a prefix of what the user of its peer has written.
    ensures law { SealedNetworkLaw }
{}

/// The law that the law of freshness isn't empty.
pub fn law_sealed_hello()
    // Eleven events of the sealed machine lead from two new hosts to a net in which a request and
    // data were read.
    ensures { SomethingSealedIsRead }
{}

/// The law of two nodes over sealed links. A datagram may be lost, late, repeated or out of order.
pub fn law_sealed_nodes()
    // There is a net behind two new nodes, and after any number of whole turns, halves and owners'
    // calls a run leads to a net behind the nodes. A whole turn may have any timers. A datagram of
    // the other node comes only under a counter that the other node's seal gave to the datagram.
    // The counter must be fewer than 256 below the greatest that came, and each packet must be
    // near. The seals may give any counters that rise.
    ensures { SealedNodesStay }
{}

/// The law that the premises of [`law_sealed_nodes`] can be met.
pub fn law_sealed_nodes_hello()
    // Eleven steps lead from two new nodes, over real bytes, to a system in which a node has read a
    // request and data. The counters rise, and what came was in time and near. A net stands for the
    // system.
    ensures { SomethingIsReadBySealedNodes }
{}
