//! Packet numbers.
ghost use Rattle.std.specs.Prelude.{◌≡◌, ℕ, ◌<◌, ◌↔◌, IsTrue};
ghost use Rattle.chaos_packet.specs.Number.{num, off, After};

use std::marker::Model;

/// A packet number, which counts modulo 65536 (AI Memo 628, on connections). A contract sees the
/// number.
#[derive(Clone, Copy, Debug, PartialEq, Eq)]
pub struct PktNum(pub u16);

impl Model for PktNum {
    ghost Value = { ℕ };

    ghost view = { λ n. n.0 };

    ghost inverse = { λ n. record { 0 = n } };
}

impl PktNum {
    /// The next number: 0 comes after 65535.
    pub fn next(self) -> Self
        // The next number is one further on, modulo 65536.
        ensures { result ≡ num self 1 }
    {
        self.plus(1)
    }

    /// A later number.
    pub fn plus(self, more: u16) -> Self
        // The number is that many further on, modulo 65536.
        ensures { result ≡ num self more }
    {
        PktNum(self.0.wrapping_add(more))
    }

    /// How far this number is past the other.
    pub fn off(self, other: PktNum) -> u16
        // The distance goes round the circle from the other number to this one.
        ensures distance { result ≡ off self other }
        // The distance is less than 65,536.
        ensures below { result < 65536 }
    {
        self.0.wrapping_sub(other.0)
    }

    /// Whether this number comes after the other.
    pub fn after(self, other: PktNum) -> bool
        // A number is after another exactly if it is past it by less than half the circle.
        ensures { IsTrue result ↔ After self other }
    {
        let distance = self.off(other);
        1 <= distance && distance < 32768
    }
}
