//! A law of serving.
ghost use Rattle.chaos_file.specs.Serve.{IsReplyTaken};

/// The law that a reply goes out. So `Replied` says that a reply was sent, and is kept until its
/// receipt comes.
#[tactic(auto, using(crate::proofs::ReplyTaken::reply_taken))]
pub fn law_reply_taken()
    // If an end can write, it takes a reply of at most 488 bytes after the read of the command.
    ensures { IsReplyTaken }
{}
