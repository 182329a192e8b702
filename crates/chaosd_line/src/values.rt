//! The forms of words, and the values that they stand for.
ghost use Rattle.std.specs.Prelude.{◌≤◌, ◌<◌};
ghost use Rattle.chaosd_hosts.specs.Addresses.{address_of, peer_of, socket_of};
ghost use Rattle.chaosd_line.specs.Values.{decimal_of, flag_of, log_of, version_of};

use crate::form::Form;
use crate::line::LogLevel;
use chaos_link::{Carriage, Peer};
use chaos_window::MAX_WINDOW;
use chaosd_hosts::{
    ADDRESS_FORM, SOCKET_FORM, address_of, is_padded, number_of, peer_of, socket_of,
};
use std::net::SocketAddrV4;

/// A Chaosnet address: one to six octal digits.
pub(crate) struct Address;

impl Form for Address {
    type Value = u16;

    ghost reads = { λ _. address_of };

    ghost fits = { λ _ n. 0 < n };

    fn expected(&self) -> &'static str {
        ADDRESS_FORM
    }

    fn value_of(&self, text: &str) -> Option<u16> {
        address_of(text)
    }
}

/// Decimal digits without leading zeros, which write a number within bounds.
pub(crate) struct Decimal {
    /// The least number.
    least: u64,
    /// The greatest.
    most: u64,
    /// What a message says that it expected.
    expected: &'static str,
}

impl Form for Decimal {
    type Value = u64;

    ghost reads = { λ d. decimal_of d.least d.most };

    ghost fits = { λ d n. n ≤ d.most };

    fn expected(&self) -> &'static str {
        self.expected
    }

    #[tactic(auto, unfolding(crate::specs::Values::decimal_of))]
    fn value_of(&self, text: &str) -> Option<u64> {
        if is_padded(text) {
            return None;
        }
        number_of(text, 10, self.least, self.most)
    }
}

/// The number of turns.
pub(crate) const TURNS: Decimal = Decimal {
    least: 0,
    most: 1_000_000_000,
    expected: "a decimal number from 0 to 1000000000, without leading zeros",
};

/// The packets of a window.
pub(crate) const WINDOW: Decimal = Decimal {
    least: 1,
    most: MAX_WINDOW as u64,
    expected: "a decimal number from 1 to 64, without leading zeros",
};

/// The milliseconds after which packets are retransmitted.
pub(crate) const RETRANSMIT: Decimal = Decimal {
    least: 20,
    most: 60_000,
    expected: "a decimal number of milliseconds from 20 to 60000, without leading zeros",
};

/// The seconds of a timeout.
pub(crate) const SECONDS: Decimal = Decimal {
    least: 1,
    most: 3_600,
    expected: "a decimal number of seconds from 1 to 3600, without leading zeros",
};

/// How packets are sent, by the version of their datagrams.
pub(crate) struct Version;

impl Form for Version {
    type Value = Carriage;

    ghost reads = { λ _. version_of };

    fn expected(&self) -> &'static str {
        "1 or 2"
    }

    #[tactic(auto, unfolding(crate::specs::Values::version_of))]
    fn value_of(&self, text: &str) -> Option<Carriage> {
        match text {
            "1" => Some(Carriage::One),
            "2" => Some(Carriage::Two),
            _ => None,
        }
    }
}

/// How much a server logs.
pub(crate) struct Level;

impl Form for Level {
    type Value = LogLevel;

    ghost reads = { λ _. log_of };

    fn expected(&self) -> &'static str {
        "quiet, normal or all"
    }

    #[tactic(auto, unfolding(crate::specs::Values::log_of))]
    fn value_of(&self, text: &str) -> Option<LogLevel> {
        match text {
            "quiet" => Some(LogLevel::Quiet),
            "normal" => Some(LogLevel::Normal),
            "all" => Some(LogLevel::All),
            _ => None,
        }
    }
}

/// Whether a flag is given, as clap says it.
pub(crate) struct Flag;

impl Form for Flag {
    type Value = bool;

    ghost reads = { λ _. flag_of };

    fn expected(&self) -> &'static str {
        "no value"
    }

    #[tactic(auto, unfolding(crate::specs::Values::flag_of))]
    fn value_of(&self, text: &str) -> Option<bool> {
        match text {
            "true" => Some(true),
            "false" => Some(false),
            _ => None,
        }
    }
}

/// A UDP address, `a.b.c.d:port`.
pub(crate) struct Socket;

impl Form for Socket {
    type Value = SocketAddrV4;

    ghost reads = { λ _. socket_of };

    fn expected(&self) -> &'static str {
        SOCKET_FORM
    }

    fn value_of(&self, text: &str) -> Option<SocketAddrV4> {
        socket_of(text)
    }
}

/// Another host: an address, `=` and a socket.
pub(crate) struct Host;

impl Form for Host {
    type Value = Peer;

    ghost reads = { λ _. peer_of };

    fn expected(&self) -> &'static str {
        "a Chaosnet address, `=` and a UDP address with a port from 1 to 65535, such as 402=127.0.0.1:9002"
    }

    fn value_of(&self, text: &str) -> Option<Peer> {
        peer_of(text)
    }
}
