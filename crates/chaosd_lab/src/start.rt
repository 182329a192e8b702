//! The first line, which says what both ends are.
ghost use Rattle.std.specs.Prelude.{◌≡◌, option_map};
ghost use Rattle.chaosd_lab.specs.Start.{caps_of, cap_of, config_of, ends_of, start_of};

use crate::fields::cut;
use crate::numbers::number_of;
use chaos_conn::ConnConfig;
use chaos_packet::PktNum;

/// What both ends are, and the number of A's first item.
#[derive(Clone, Copy)]
pub struct Start {
    pub a: ConnConfig,
    pub b: ConnConfig,
    pub start: PktNum,
}

/// The greatest windows of an end.
#[derive(Clone, Copy)]
pub struct Caps {
    pub send: u16,
    pub recv: u16,
}

/// A cap and what stands behind it.
fn cap_of(rest: &[u8]) -> Option<(u16, &[u8])>
    ensures { option_map (λ p. (p.0, p.1.now)) result ≡ cap_of rest.now }
{
    let (cap, rest) = cut(rest)?;
    let cap = number_of(u64::from(u16::MAX), cap)?;
    Some((cap as u16, rest))
}

/// The two caps of an end, and what stands behind them.
fn caps_of(rest: &[u8]) -> Option<(Caps, &[u8])>
    ensures { option_map (λ p. (p.0, p.1.now)) result ≡ caps_of rest.now }
{
    let (send, rest) = cap_of(rest)?;
    let (recv, rest) = cap_of(rest)?;
    Some((Caps { send, recv }, rest))
}

/// An end of these caps and the usual times.
fn config_of(caps: Caps) -> Option<ConnConfig>
    ensures { result ≡ config_of caps }
{
    let usual = ConnConfig::usual();
    let config = ConnConfig::new(
        caps.send,
        caps.recv,
        usual.retransmit(),
        usual.probe(),
        usual.down(),
    );
    match config {
        Ok(config) => Some(config),
        Err(_) => None,
    }
}

/// `SA RA SB RB N`.
fn ends_of(rest: &[u8]) -> Option<Start>
    ensures { result ≡ ends_of rest.now }
{
    let (a, rest) = caps_of(rest)?;
    let (b, rest) = caps_of(rest)?;
    let a = config_of(a)?;
    let b = config_of(b)?;
    let start = number_of(u64::from(u16::MAX), rest)?;
    Some(Start {
        a,
        b,
        start: PktNum(start as u16),
    })
}

/// What the line `ends SA RA SB RB N` says, if it is of that form.
#[tactic(auto, unfolding(crate::specs::Start::start_of))]
pub fn start_of(line: &[u8]) -> Option<Start>
    // The result is what the first line says.
    ensures { result ≡ start_of line.now }
{
    let (word, rest) = cut(line)?;
    if word == b"ends".as_slice() {
        ends_of(rest)
    } else {
        None
    }
}
