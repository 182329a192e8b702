//! The engines `lab` and `filelab` of the program `chaosd`: scripts of what happens in a laboratory
//! in, what came of each line out. They work on a reader and a writer that the caller hands in.
//!
//! - A script of any kind: [`run_script`] takes the lines of a reader one after another. `player`
//!   plays a line, `standing` is where the script stands, `room` makes room for the text of a line.
//!   `bad_line` is what is wrong with a line. A laboratory implements [`Stage`], which says what a
//!   line does and prints.
//! - What a line says: `fields` divides a line, `numbers` reads a field, `start` reads the first
//!   line, `parse` a later one, and `file_parse` one of `filelab`, whose language has the line
//!   `serve` besides.
//! - What is printed: `names`, `answers`, `file_answers`, and `typed`, the line of an event.
//! - What a line does: [`LabStage`] and [`FileStage`] play an event, `settle` and `file_settle` the
//!   events of settling.
//! - `runs` has the runs over a script of `lab` and of `filelab`.
#![tactic(auto)]

mod answers;
mod bad_line;
mod fields;
mod file_answers;
mod file_parse;
mod file_settle;
mod file_stage;
mod lab_stage;
mod names;
mod numbers;
mod parse;
mod player;
mod room;
mod runs;
mod script;
mod settle;
mod stage;
mod standing;
mod start;
mod typed;

pub use bad_line::{BadLine, LineForm, LineReport};
pub use file_stage::FileStage;
pub use lab_stage::LabStage;
pub use room::make_room;
pub use runs::{run_filelab, run_lab};
pub use script::run_script;
pub use stage::Stage;
