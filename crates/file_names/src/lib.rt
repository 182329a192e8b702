//! Names of local files, and the paths that these files are copied from and to.
#![tactic(auto)]

mod destination;
mod named;
mod put_file;

pub use destination::{Destination, is_folder};
pub use named::Named;
pub use put_file::{PutFile, STREAM};
