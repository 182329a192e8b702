//! Bytes moved within a buffer.
ghost use Rattle.std.specs.Prelude.{◌≡◌, ◌+◌, ◌≤◌, length, take, drop};

/// Moves so many bytes from that place to the front.
pub(crate) fn move_to_front(bytes: &mut [u8], from: usize, count: usize)
    requires { from + count ≤ length bytes.old }
    ensures { take count bytes.new ≡ take count (drop from bytes.old) }
{
    if from > 0 {
        bytes.copy_within(from..from + count, 0);
    }
}
