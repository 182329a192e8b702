//! A packet, and the trailer of its datagram.

use chaos_packet::Packet;
use std::marker::Model;

/// A packet with what the trailer of its datagram says.
#[derive(Debug, PartialEq, Eq, Drop)]
pub struct Delivery {
    pub packet: Packet,
    /// The address of the next hop.
    pub to: u16,
    /// The address of the hop that sent it.
    pub from: u16,
    /// The sum, as it stands in the bytes.
    pub sum: u16,
}

impl Model for Delivery {
    ghost use Rattle.chaos_chudp.specs.Chudp.{DeliveryView};

    ghost Value = { DeliveryView };

    ghost view = { λ d. record { packet = d.packet; to = d.to; from = d.from; sum = d.sum } };

    ghost inverse = { λ v. record { packet = v.packet; to = v.to; from = v.from; sum = v.sum } };
}
