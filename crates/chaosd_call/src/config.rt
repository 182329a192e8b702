//! How the connections of a line are set.
ghost use Rattle.std.specs.Prelude.{◌≡◌};
ghost use Rattle.chaosd_call.specs.Config.{config_by, interval_by};

use chaos_conn::ConnConfig;
use chaos_node::{Interval, LEAST_INTERVAL};

/// When the connections of a line send kept items again.
pub fn interval_of(retransmit: Option<u64>) -> Interval
    // Items are sent again after so many milliseconds where they are given, otherwise after the time
    // that the measured round trips call for.
    ensures { result ≡ interval_by retransmit }
{
    match retransmit {
        Some(millis) => Interval::Fixed(millis),
        None => Interval::Measured,
    }
}

/// The configuration of the connections of a line.
pub fn config_of(window: u16, retransmit: Option<u64>) -> ConnConfig
    // Both windows have so many packets. These are sent again after so many milliseconds where they
    // are given, otherwise after the 20 milliseconds that are the least of a measured time. The other
    // times are the usual ones. The usual configuration stands for a configuration that can't be.
    ensures { result ≡ config_by window retransmit }
{
    let usual = ConnConfig::usual();
    let retransmit = retransmit.unwrap_or(LEAST_INTERVAL);
    match ConnConfig::new(window, window, retransmit, usual.probe(), usual.down()) {
        Ok(config) => config,
        Err(_) => usual,
    }
}
