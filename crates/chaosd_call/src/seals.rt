//! What a run seals with.
ghost use Rattle.std.specs.Prelude.{◌≡◌, [], IfErr, IfOk, IfSome};
ghost use Rattle.chaosd_call.specs.Exit.{IsFailure};
ghost use Rattle.chaosd_call.specs.Key.{IsSession, SealsWith};

use crate::exit_status::ExitStatus;
use crate::keys::HostKey;
use chaos_node::ReadableClock;
use chaos_seal::{KeyFault, Seals};
use chaosd_io::RunFault;
use std::alloc::Global;

/// The session of a run that begins now: the nanoseconds since 1970, so that a later run has a
/// greater one.
fn session_now<R: ReadableClock>(rt: &R) -> Option<u64>
    ensures { IfSome result (R.dates rt.now) }
{
    let date = rt.date().ok()?;
    u64::try_from(date.as_nanos()).ok()
}

/// The session of a run with these keys. A run without keys seals nothing, and needs no clock.
fn session_of<R: ReadableClock + Eprint>(rt: &R, keys: &[HostKey]) -> Result<u64, ExitStatus>
    ensures session { IfOk result (IsSession (R.dates rt.now) keys.now) }
    ensures failed { IfErr result IsFailure }
{
    if keys.is_empty() {
        return Ok(0);
    }
    match session_now(rt) {
        Some(session) => Ok(session),
        None => {
            let fault = RunFault::ClockFault;
            let _ = eprintln!(rt; "chaosd: {fault}");
            Err(ExitStatus::of_fault(fault))
        }
    }
}

/// What the host with this address seals with in this session, where no host has a key yet.
fn no_seals(alloc: Global, me: u16, session: u64, is_closed: bool) -> Seals
    ensures { result ≡ record { me = me; session = session; closed = is_closed; peers = [] } }
{
    let mut seals = Seals::new(alloc, me, session);
    if is_closed {
        seals.close();
    }
    seals
}

/// The exit status of a run that can't have a key.
fn status_of(fault: KeyFault) -> ExitStatus
    ensures { IsFailure result }
{
    match fault {
        KeyFault::NoMemory => ExitStatus::NoMemory,
        KeyFault::TooMany | KeyFault::Already => ExitStatus::BadLine,
    }
}

/// What the host with this address seals with, in a run that begins now, where it has these keys
/// and hears others in clear unless it is closed. That the clock can't be read, or that there is no
/// memory, is reported, and the error is the status.
pub fn seals_of<R: AllocGlobal + ReadableClock + Eprint>(
    rt: &R,
    me: u16,
    keys: &[HostKey],
    is_closed: bool,
) -> Result<Seals, ExitStatus>
    // The host seals at its address with each of the keys, and nothing was sealed or heard yet. The
    // session is a time that the clock may show, in nanoseconds since 1970, or 0 without keys. A
    // closed host hears nobody in clear.
    ensures seals { IfOk result (SealsWith (R.dates rt.now) me keys.now is_closed) }
    // The error is never the status Done.
    ensures failed { IfErr result IsFailure }
{
    let mut seals = no_seals(rt.alloc(), me, session_of(rt, keys)?, is_closed);
    for key in keys {
        if let Err(fault) = seals.add(key.address, &key.key) {
            let _ = eprintln!(rt; "chaosd: host {:o}: {fault}", key.address);
            return Err(status_of(fault));
        }
    }
    Ok(seals)
}
