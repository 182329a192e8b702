//! How a client calls: its numbers, its times, and how long it waits.
ghost use Rattle.std.specs.Prelude.{◌≡◌, IfErr, IfOk, true};
ghost use Rattle.chaosd_call.specs.Epochs.{IsEpochBy};
ghost use Rattle.chaosd_call.specs.Patience.{patience_by};
ghost use Rattle.chaosd_call.specs.Routes.{IsRouteOf};
ghost use Rattle.chaosd_line.specs.Values.{is_contact};

use crate::config::config_of;
use chaos_node::{Epoch, NodeFault, ReadableClock};
use chaosd_line::{Calling, Ends};
use file_client::{Contact, Patience, Route, Timing};
use std::fs::{File, Files};
use std::io;
use std::io::Read;

/// Where the system gives random bytes.
const RANDOM: &str = "/dev/urandom";

/// How long a client waits for a reply.
pub fn patience_of(seconds: Option<u16>) -> Patience
    // The patience is so many seconds by the clock where they are given, otherwise the usual
    // patience.
    ensures { result ≡ patience_by seconds }
{
    match seconds {
        Some(seconds) => Patience::Millis(u64::from(seconds) * 1_000),
        None => Patience::usual(),
    }
}

/// The contact of this name.
pub fn contact_of(name: &str) -> Contact
    requires { is_contact name.now ≡ true }
    // The contact has exactly the bytes of the name.
    ensures { result ≡ name.now }
{
    match Contact::new(name.as_bytes()) {
        Ok(contact) => contact,
        Err(_) => unreachable!(),
    }
}

/// A first number and a count of indices that nobody can guess.
fn drawn<R: Files<File = File>>(rt: &R) -> io::Result<(u16, u8)> {
    let mut bytes = [0; 3];
    File::open(rt, RANDOM)?.read_exact(&mut bytes)?;
    let [low, high, passed] = bytes;
    Ok((u16::from_le_bytes([low, high]), passed))
}

/// A run that begins now, with first numbers and indices that nobody can guess. Where the system
/// gives no random bytes, they come from the clock.
///
/// # Errors
/// `Clock` where the clock can't be read.
pub fn epoch_of<R: ReadableClock + Files<File = File>>(rt: &R) -> Result<Epoch, NodeFault>
    // The epoch has the clock's own time. Its first number and its count of indices were drawn, or
    // are those of the clock's date.
    ensures begins { IfOk result (IsEpochBy (R.shows rt.now) (R.dates rt.now)) }
    // It fails only by the clock, where that may fail.
    ensures faults { IfErr result (λ fault. (fault ≡ NodeFault.Clock) × R.fails rt.now) }
{
    match drawn(rt) {
        Ok((first, passed)) => Epoch::drawn(rt, first, passed),
        Err(_) => Epoch::new(rt),
    }
}

/// The numbers and the patience of a copy.
///
/// # Errors
/// `Clock` where the clock can't be read.
pub fn timing_of<R: ReadableClock + Files<File = File>>(
    rt: &R,
    calling: &Calling<'_>,
) -> Result<Timing, NodeFault>
    // A reply is waited for as long as the line says.
    ensures { IfOk result (λ timing. timing.patience ≡ patience_by calling.now.timeout) }
{
    Ok(Timing {
        epoch: epoch_of(rt)?,
        patience: patience_of(calling.timeout),
    })
}

/// From whom to whom a line calls. When what is kept is sent again is measured.
pub fn route_of(calling: &Calling<'_>, ends: &Ends) -> Route
    // The route leads from the line's host to its server, for its contact, by its carriage and
    // windows. The time to send again is the least one, since the timer of the driver decides.
    ensures { IsRouteOf calling.now ends.now result }
{
    Route {
        me: ends.address,
        to: ends.server.address,
        contact: contact_of(calling.contact),
        config: config_of(calling.window, None),
        carriage: calling.framing.carriage(),
    }
}
