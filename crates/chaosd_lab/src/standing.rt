//! Where a script stands.
use crate::stage::Stage;

/// Where a script stands: its laboratory, which is none before the first line, and how many lines
/// were played and how many events refused.
#[derive(Drop)]
pub struct Standing<S: Stage> {
    pub lab: Option<S>,
    pub lines: u64,
    pub refused: u64,
}
