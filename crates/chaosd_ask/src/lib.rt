//! The engines of the program `chaosd` that ask or serve over links: `loop` and `ask`, which run a
//! script of FILE, and `serve`.
//!
//! They work on readers, writers, links and a clock that their callers hand in. `command` reads a
//! line of a script, and `replies` prints. `input_ready` has how a reader is asked whether it has
//! something to give. `notes` has what is noted of a run besides its result. `typed` has what a
//! command lacks that is typed without its tid. `script` runs a script by a new client, and
//! `loop_run`, `ask_run` and `serve_run` are the engines.
#![tactic(auto)]

mod ask_run;
mod command;
mod end;
mod input_ready;
mod limits;
mod loop_run;
mod notes;
mod replies;
mod script;
mod serve_run;
mod typed;

pub use ask_run::run_ask;
pub use command::read_command;
pub use end::ScriptEnd;
pub use input_ready::InputReady;
pub use limits::{LOOP_CLIENT, LOOP_SERVER, NOBODY, law_limits};
pub use loop_run::run_loop;
pub use notes::{HandleName, Notes, ReplyNotes};
pub use script::ask_script;
pub use serve_run::run_serve;
pub use typed::{Front, MAX_TYPED, NoCommand, no_command, write_front};
