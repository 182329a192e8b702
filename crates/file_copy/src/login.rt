//! How far a LOGIN has come.
use chaos_file::Reply;

/// How far a user's LOGIN has come over a connection.
#[derive(Drop)]
pub enum Login {
    /// It wasn't sent.
    Unsent,
    /// It was sent, and its reply didn't come yet.
    Sent,
    /// The user is logged in.
    Done,
    /// This reply came, which doesn't log the user in.
    Missed(Reply),
}
