//! How a run over a FILE script ended.

/// How many commands were tried, and how many replies were printed: one less where the last command
/// got none.
#[derive(Clone, Copy, Debug, PartialEq, Eq)]
pub struct ScriptEnd {
    pub commands: u64,
    pub replied: u64,
}
