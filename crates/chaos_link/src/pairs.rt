//! The bytes of words: a link has the high byte first, a packet's data the low one.
ghost use Rattle.std.specs.Prelude.{◌≡◌, ◌+◌, ◌*◌, ◌/◌, ◌≤◌, ◌++◌, length, take};
ghost use Rattle.chaos_packet.specs.Words.{halves};
ghost use Rattle.chaos_link.specs.Datagram.{wire, words_of};

/// The bytes that are turned round at once: a vector of them.
const BLOCK: usize = 16;

/// Copies whole pairs of bytes, each turned round. A last odd byte is left.
#[inline(always)]
pub(crate) fn turn_pairs(from: &[u8], to: &mut [u8])
    requires { length from.now ≤ length to.old }
    ensures { take (2 * (length from.now / 2)) to.new ≡ halves (words_of from.now) }
{
    for block in 0..from.len() / BLOCK {
        let place = BLOCK * block;
        turn_few(&from[place..place + BLOCK], &mut to[place..place + BLOCK]);
    }
    let rest = BLOCK * (from.len() / BLOCK);
    turn_few(&from[rest..], &mut to[rest..]);
}

/// The same for a block of bytes or fewer: read whole before any is written, so that no byte
/// written can be one to be read.
#[inline(always)]
fn turn_few(from: &[u8], to: &mut [u8])
    requires few { length from.now ≤ BLOCK }
    requires fits { length from.now ≤ length to.old }
    ensures { take (2 * (length from.now / 2)) to.new ≡ halves (words_of from.now) }
{
    let mut words = [0u16; BLOCK / 2];
    for i in 0..from.len() / 2 {
        words[i] = u16::from_be_bytes([from[2 * i], from[2 * i + 1]]);
    }
    for i in 0..from.len() / 2 {
        to[2 * i] = (words[i] % 256) as u8;
        to[2 * i + 1] = (words[i] / 256) as u8;
    }
}

/// Puts words behind so many bytes, each high byte first, and says where they end.
#[inline(always)]
pub(crate) fn put_words(words: &[u16], front: usize, bytes: &mut [u8]) -> usize
    requires { front + 2 * length words.now ≤ length bytes.old }
    ensures end { result ≡ front + 2 * length words.now }
    ensures fits { result ≤ length bytes.new }
    ensures bytes { take result bytes.new ≡ take front bytes.old ++ wire words.now }
{
    for i in 0..words.len() {
        bytes[front + 2 * i] = (words[i] / 256) as u8;
        bytes[front + 2 * i + 1] = (words[i] % 256) as u8;
    }
    front + 2 * words.len()
}
