//! A host of Chaosnet for other languages: a static library, which include/chaos_ncp.h declares for C. docs/NCP.md is the page for its callers.
#![tactic(auto)]

mod asking;
mod calling;
mod carrying;
mod fault;
mod handle;
mod lifetime;
mod loose;
mod node;
mod raw;
mod talking;
