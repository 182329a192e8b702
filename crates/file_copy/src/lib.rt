//! Whole files over FILE: the commands by which one is put and got, and the end that says them,
//! many at a time.
#![tactic(auto)]

mod bytes;
mod change;
mod end;
mod get;
mod laws;
mod limits;
mod local;
mod login;
mod mem_talk;
mod no_reply;
mod observer;
mod pace;
mod put;
mod row;
mod said;
mod shown;
mod talk;
mod text;
mod user;
mod user_talk;
mod window;

pub use change::{delete_file, rename_file};
pub use end::CopyEnd;
pub use get::get_file;
pub use laws::{law_get, law_got, law_login, law_pieces, law_put, law_put_broken, law_tids};
pub use limits::{MAX_FIRST, MOST_TURNS, law_limits};
pub use local::{last_name, read_whole};
pub use login::Login;
pub use mem_talk::MemTalk;
pub use no_reply::NoReply;
pub use observer::{Observer, Unobserved};
pub use pace::{Line, Pace};
pub use put::put_file;
pub use shown::Shown;
pub use talk::Talk;
pub use text::{Charset, law_text};
pub use user::UserTalk;
