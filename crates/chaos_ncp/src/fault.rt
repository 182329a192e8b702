//! Why a call was refused.
ghost use Rattle.std.specs.Prelude.{◌≡◌};
ghost use Rattle.chaos_ncp.specs.Codes.{code_of};

use chaos_conn::ConnFault;
use chaos_host::{CallFault, ConnectFault, ListenFault, MakeFault};

/// Why a call was refused. A refused call changes nothing.
#[derive(Clone, Copy, Debug, PartialEq, Eq)]
pub enum Fault {
    /// The handle has no node.
    NoNode,
    /// The handle has a node already.
    HasNode,
    /// An address is 0.
    BadAddress,
    /// The connections aren't 1 to 255.
    BadCount,
    /// The window isn't 1 to 64.
    BadWindow,
    /// There is no memory.
    NoMemory,
    /// Datagrams wait to be taken, and leave no room for what the call may put out.
    OutboxFull,
    /// The bytes carry no packets.
    BadDatagram,
    /// More bytes than the call takes.
    TooLong,
    /// The contact is empty, or has a space.
    BadContact,
    /// The node listens to the contact already.
    AlreadyListens,
    /// The node listens to 16 contacts.
    TooManyContacts,
    /// Every connection is in use.
    TableFull,
    /// No connection has this number.
    NoConnection,
    /// The connection isn't open.
    NotOpen,
    /// The peer's window is full.
    WindowFull,
    /// The connection's state takes no such call.
    WrongState,
    /// The connection hasn't ended.
    StillActive,
    /// Neither data nor EOF.
    BadOpcode,
    /// The caller's buffer is too small.
    SmallBuffer,
    /// A connection is in use, or a datagram waits.
    InUse,
}

impl Fault {
    /// The number by which C knows the fault: include/chaos_ncp.h has the same numbers.
    pub fn code(self) -> i32
        // Each fault has a number of its own, from -1 on down.
        ensures { result ≡ code_of self }
    {
        match self {
            Fault::NoNode => -1,
            Fault::HasNode => -2,
            Fault::BadAddress => -3,
            Fault::BadCount => -4,
            Fault::BadWindow => -5,
            Fault::NoMemory => -6,
            Fault::OutboxFull => -7,
            Fault::BadDatagram => -8,
            Fault::TooLong => -9,
            Fault::BadContact => -10,
            Fault::AlreadyListens => -11,
            Fault::TooManyContacts => -12,
            Fault::TableFull => -13,
            Fault::NoConnection => -14,
            Fault::NotOpen => -15,
            Fault::WindowFull => -16,
            Fault::WrongState => -17,
            Fault::StillActive => -18,
            Fault::BadOpcode => -19,
            Fault::SmallBuffer => -20,
            Fault::InUse => -21,
        }
    }
}

impl From<MakeFault> for Fault {
    fn from(fault: MakeFault) -> Self {
        match fault {
            MakeFault::BadAddress => Fault::BadAddress,
            MakeFault::BadCount => Fault::BadCount,
            MakeFault::NoMemory => Fault::NoMemory,
        }
    }
}

impl From<ListenFault> for Fault {
    fn from(fault: ListenFault) -> Self {
        match fault {
            ListenFault::TooMany => Fault::TooManyContacts,
            ListenFault::TooLong => Fault::TooLong,
            ListenFault::Already => Fault::AlreadyListens,
            ListenFault::BadContact => Fault::BadContact,
        }
    }
}

impl From<ConnectFault> for Fault {
    fn from(fault: ConnectFault) -> Self {
        match fault {
            ConnectFault::TableFull => Fault::TableFull,
            ConnectFault::TooLong => Fault::TooLong,
            ConnectFault::BadAddress => Fault::BadAddress,
        }
    }
}

impl From<ConnFault> for Fault {
    fn from(fault: ConnFault) -> Self {
        match fault {
            ConnFault::NotOpen => Fault::NotOpen,
            ConnFault::BadOp => Fault::BadOpcode,
            ConnFault::TooLong => Fault::TooLong,
            ConnFault::Full => Fault::WindowFull,
            ConnFault::BadAddress => Fault::BadAddress,
            ConnFault::BadWindow => Fault::BadWindow,
            ConnFault::Busy | ConnFault::WrongState | ConnFault::BadRequest => Fault::WrongState,
        }
    }
}

impl From<CallFault> for Fault {
    fn from(fault: CallFault) -> Self {
        match fault {
            CallFault::NoSuchConnection => Fault::NoConnection,
            CallFault::StillActive => Fault::StillActive,
            CallFault::Refused(fault) => Fault::from(fault),
        }
    }
}
