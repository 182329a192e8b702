//! What the engines of the program `chaosd` share: a reader of lines, a buffer of text that waits
//! to be written, bytes as text, and the faults of a run.
//!
//! Each works on a reader or a writer that its caller hands in: no sockets, no files and no clock.
//! Nothing is allocated.
#![tactic(auto)]

mod bad_text;
mod buffer;
mod escapes;
mod fault;
mod input;
mod limits;
mod lines;
mod memory;
mod moves;
mod output;
mod reader;
mod texts;

pub use bad_text::{BadText, why_text};
pub use buffer::{NotWritten, WriteBuffer};
pub use escapes::{Data, data_of, law_read_back, put_text, read_data};
pub use fault::{RunFault, written};
pub use input::{ByRead, ReadOnce, read_chunk};
pub use limits::{BUFFER_LEN, CHUNK_LEN, INPUT_LIMIT, KEPT_LEN, LINE_LIMIT, law_limits};
pub use lines::without_return;
pub use memory::{ByMemory, MemInput, MemSink};
pub use output::{ByWrite, WriteOnce};
pub use reader::LineReader;
pub use texts::{put_decimal, put_line, put_octal_three};
