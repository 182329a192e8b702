//! Where an event happens.

use crate::side::Side;

/// The end at which an event happens, and whether a copy comes to it as the request.
#[derive(Clone, Copy)]
pub(crate) struct Target {
    pub(crate) side: Side,
    pub(crate) asks: bool,
}
