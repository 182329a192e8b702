//! The laboratory: two ends of one connection (AI Memo 628, on connections) over a network that
//! loses, repeats and reorders packets, and what is true of them whatever it does.
//!
//! [`Lab`] runs two real connections over a schedule of [`Event`]s, and keeps every packet that was
//! ever sent. The plain machine (`specs/Machine.antt`) says in whole lists and true counts what two
//! ends may do. It has two laws: [`law_delivery`] over all its schedules, and [`law_numbers`], by
//! which 16-bit packet numbers stand for true counts.
//!
//! No sockets and no clock: moments are handed in.
#![tactic(auto)]

mod both_ends;
mod copy_list;
mod data;
mod event;
mod fault;
mod history;
mod kept_item;
mod kept_packet;
mod lab;
mod lab_end;
mod law;
mod rig;
mod settling;
mod side;
mod stamped;
mod target;
mod user;

pub use data::set_aside;
pub use event::{Event, StepDone, Stepped};
pub use fault::LabFault;
pub use kept_item::KeptItem;
pub use kept_packet::KeptPacket;
pub use lab::Lab;
pub use law::{
    law_delivery, law_kept, law_lab_hello, law_limits, law_machine_hello, law_numbers, law_phases,
    law_plays,
};
pub use rig::FRESH_SPAN;
pub use settling::Settling;
pub use side::Side;
pub use stamped::Stamped;
pub use user::{Turned, User};
