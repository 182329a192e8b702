//! The numbers that a service keeps to.
ghost use Rattle.std.specs.Prelude.{◌≡◌};
ghost use Rattle.file_server.specs.declared.limits.TheConstants.{BURST, SERVER_CONNS, SILENT_MILLIS};

/// The connections of a server's host.
pub const SERVER_CONNS: usize = 16;

/// For how many milliseconds a server serves a peer that acknowledges nothing. Such a peer may
/// never have asked: a forger wrote its address into a request. A peer on a road of 10 seconds each
/// way acknowledges the OPN 20 seconds after it was sent.
pub const SILENT_MILLIS: u64 = 30_000;

/// The most commands of a connection that are served in one burst. A burst also ends where more
/// packets than that wait: the outbox of a turn has room for two packets more, and a command puts
/// out two at most.
pub const BURST: usize = 64;

/// The limits of a service as numerals.
pub fn law_limits()
    // A server's host has 16 connections.
    ensures conns { SERVER_CONNS ≡ 16 }
    // A server serves a peer that acknowledges nothing for 30,000 milliseconds.
    ensures silent { SILENT_MILLIS ≡ 30000 }
    // A burst has at most 64 commands.
    ensures burst { BURST ≡ 64 }
{}
