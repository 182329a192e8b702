//! Names of states, answers and faults.
ghost use Rattle.std.specs.Prelude.{◌≡◌};
ghost use Rattle.chaosd_lab.specs.Names.{side_name, state_name, why_name, delivered_name, conn_fault_name};

use chaos_conn::{ConnFault, Delivered, State, Why};
use chaos_lab::Side;

/// The name of a side in scripts and in what is printed.
pub fn side_name(side: Side) -> &'static str
    ensures { result.now ≡ side_name side }
{
    match side {
        Side::A => "a",
        Side::B => "b",
    }
}

/// The name of a connection's state in what is printed.
pub fn state_name(state: State) -> &'static str
    // The name is the language's.
    ensures { result.now ≡ state_name state }
{
    match state {
        State::Inactive => "Inactive",
        State::RfcSent => "RfcSent",
        State::RfcReceived => "RfcReceived",
        State::Open => "Open",
        State::Answered => "Answered",
        State::ClsReceived => "ClsReceived",
        State::LosReceived => "LosReceived",
        State::HostDown => "HostDown",
        State::Forwarded => "Forwarded",
    }
}

/// A packet's fate, without the packet; that of a dropped one with the reason.
pub fn delivered_name(delivered: &Delivered) -> &'static str
    ensures { result.now ≡ delivered_name delivered.now }
{
    match delivered {
        Delivered::Took => "Took",
        Delivered::Duplicate => "Duplicate",
        Delivered::Outside => "Outside",
        Delivered::Opened => "Opened",
        Delivered::Status => "Status",
        Delivered::Probed => "Probed",
        Delivered::Unc(_) => "Unc",
        Delivered::Answered(_) => "Answered",
        Delivered::Forwarded(_) => "Forwarded",
        Delivered::Closed(_) => "Closed",
        Delivered::Lost(_) => "Lost",
        Delivered::Dropped(why) => dropped_name(*why),
    }
}

/// Why a packet was dropped.
pub fn dropped_name(why: Why) -> &'static str
    ensures { result.now ≡ why_name why }
{
    match why {
        Why::NotOurs => "Dropped NotOurs",
        Why::NoSource => "Dropped NoSource",
        Why::NotOpen => "Dropped NotOpen",
        Why::Stranger => "Dropped Stranger",
        Why::BadOp => "Dropped BadOp",
        Why::BadStatus => "Dropped BadStatus",
        Why::OtherNumber => "Dropped OtherNumber",
        Why::NoConn => "Dropped NoConn",
    }
}

/// The number and the name of a connection's fault.
pub fn conn_fault_name(fault: ConnFault) -> &'static str
    ensures { result.now ≡ conn_fault_name fault }
{
    match fault {
        ConnFault::NotOpen => "1 NotOpen",
        ConnFault::BadOp => "2 BadOp",
        ConnFault::TooLong => "3 TooLong",
        ConnFault::Full => "4 Full",
        ConnFault::Busy => "5 Busy",
        ConnFault::WrongState => "6 WrongState",
        ConnFault::BadAddress => "7 BadAddress",
        ConnFault::BadRequest => "8 BadRequest",
        ConnFault::BadWindow => "9 BadWindow",
    }
}
