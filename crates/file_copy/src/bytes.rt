//! Copies of replies.
ghost use Rattle.std.specs.Prelude.{◌≡◌, ◌≤◌, length};
ghost use Rattle.chaos_file.specs.declared.limits.TheConstants.{MAX_REPLY};

use chaos_file::Reply;

/// Puts bytes in place of what was there.
pub fn fill(text: &mut Reply, bytes: &[u8])
    requires { length bytes.now ≤ MAX_REPLY }
    ensures { text.new.items ≡ bytes.now }
{
    text.clear();
    let _fits = text.try_extend_from_slice(bytes);
}

/// A copy of a command or of a reply.
pub fn copied(text: &[u8]) -> Reply
    requires { length text.now ≤ MAX_REPLY }
    ensures { result.items ≡ text.now }
{
    let mut copy = Reply::new();
    fill(&mut copy, text);
    copy
}
