//! What an end is set to.
ghost use Rattle.std.specs.Prelude.{◌≡◌};
ghost use Rattle.chaos_conn.specs.Config.{IsConfig, config_view, is_window, checked_config, usual_config, config_with};

use crate::fault::ConfigFault;
use crate::limits::{USUAL_DOWN, USUAL_PROBE, USUAL_RETRANSMIT, USUAL_WINDOW};
use chaos_window::MAX_WINDOW;
use std::marker::Model;

/// A configuration: both windows, in packets, and three times, in milliseconds. A contract sees a
/// plain record.
#[derive(Clone, Copy, Debug, PartialEq, Eq)]
pub struct ConnConfig {
    /// The greatest send window, from 1 to 64.
    send_cap: u16,
    /// The receive window, from 1 to 64.
    recv_cap: u16,
    /// After how long kept packets are sent again.
    retransmit: u64,
    /// After how long a silent peer is probed.
    probe: u64,
    /// After how long a silent peer counts as down.
    down: u64,
}

impl Model for ConnConfig {
    ghost use Rattle.chaos_conn.specs.Config.{ConfigView, IsConfig, config_view};

    ghost Value = { ConfigView };

    ghost view = { λ c. config_view c.send_cap c.recv_cap c.retransmit c.probe c.down };

    ghost invariant = { λ c.
        IsConfig (config_view c.send_cap c.recv_cap c.retransmit c.probe c.down) };

    ghost inverse = { λ v. record {
      send_cap = v.send_cap;
      recv_cap = v.recv_cap;
      retransmit = v.retransmit;
      probe = v.probe;
      down = v.down;
    } };
}

impl ConnConfig {
    /// A configuration of these windows and times.
    ///
    /// Give both windows the same size, at both ends of a connection, or give a receive window at
    /// most three times the peer's send window. A reader that sends nothing reports its reads when
    /// they come to a third of its own window. A sender with a window smaller than that third waits
    /// each time until it sends again what it keeps.
    ///
    /// `down` isn't checked against the other times. Let it be well above both. If it isn't above
    /// `retransmit`, an end that hears nothing counts its peer as down before it sends anything
    /// again, so the first lost packet ends the connection.
    pub fn new(
        send_cap: u16,
        recv_cap: u16,
        retransmit: u64,
        probe: u64,
        down: u64,
    ) -> Result<Self, ConfigFault>
        // A configuration is refused exactly where a window or a time is out of range, with its
        // first fault.
        ensures { result ≡ checked_config (config_view send_cap recv_cap retransmit probe down) }
    {
        if !is_window(send_cap) {
            return Err(ConfigFault::BadSendCap);
        }
        if !is_window(recv_cap) {
            return Err(ConfigFault::BadRecvCap);
        }
        if retransmit == 0 || probe == 0 || down == 0 {
            return Err(ConfigFault::BadTime);
        }
        Ok(ConnConfig {
            send_cap,
            recv_cap,
            retransmit,
            probe,
            down,
        })
    }

    /// The configuration for a caller without special needs.
    pub fn usual() -> Self
        // Both windows have 13 packets. The times are 500, 10,000 and 90,000 milliseconds.
        ensures { result ≡ usual_config }
    {
        ConnConfig {
            send_cap: USUAL_WINDOW,
            recv_cap: USUAL_WINDOW,
            retransmit: USUAL_RETRANSMIT,
            probe: USUAL_PROBE,
            down: USUAL_DOWN,
        }
    }

    /// The usual times with windows of another size.
    pub fn with_window(window: u16) -> Self
        // Both windows have that many packets, from 1 to 64. Any other number stands for the usual
        // 13.
        ensures { result ≡ config_with window }
    {
        if !is_window(window) {
            return ConnConfig::usual();
        }
        ConnConfig {
            send_cap: window,
            recv_cap: window,
            ..ConnConfig::usual()
        }
    }

    /// How many packets may be outstanding at most.
    pub fn send_cap(&self) -> u16
        // This is the greatest send window.
        ensures value { result ≡ self.now.send_cap }
        // In every configuration both windows have from 1 to 64 packets, and no time is 0.
        ensures sound { IsConfig self.now }
    {
        self.send_cap
    }

    /// How many packets the end holds at most.
    pub fn recv_cap(&self) -> u16
        // This is the greatest receive window.
        ensures value { result ≡ self.now.recv_cap }
        // In every configuration both windows have from 1 to 64 packets, and no time is 0.
        ensures sound { IsConfig self.now }
    {
        self.recv_cap
    }

    /// The time until packets are sent again, in milliseconds.
    pub fn retransmit(&self) -> u64
        // Kept packets are sent again after this time.
        ensures { result ≡ self.now.retransmit }
    {
        self.retransmit
    }

    /// The time until a peer is probed, in milliseconds.
    pub fn probe(&self) -> u64
        // A silent peer is probed after this time.
        ensures { result ≡ self.now.probe }
    {
        self.probe
    }

    /// The time until a peer counts as down, in milliseconds.
    pub fn down(&self) -> u64
        // A silent peer counts as down after this time.
        ensures { result ≡ self.now.down }
    {
        self.down
    }
}

/// Whether a window has from 1 to 64 packets.
fn is_window(cap: u16) -> bool
    ensures { result ≡ is_window cap }
{
    1 <= cap && cap <= MAX_WINDOW
}
