//! The Internet checksum (RFC 1071).
ghost use Rattle.std.specs.Prelude.{◌≡◌, ◌↔◌, ◌+◌, ◌*◌, ◌≤◌, ℕ, length};
ghost use Rattle.chaos_link.specs.Datagram.{words_of};
ghost use Rattle.chaos_link.specs.declared.limits.TheConstants.{LINK_ROOM};
ghost use Rattle.chaos_chudp.specs.Sum.{checksum, SeesOneWord};

/// The checksum of the whole words of the bytes, each high byte first. A last odd byte is left out.
#[inline(always)]
pub fn checksum_of(bytes: &[u8]) -> u16
    requires { length bytes.now ≤ LINK_ROOM }
    // The sum is the Internet checksum of the bytes' whole words.
    ensures { result ≡ checksum (words_of bytes.now) }
{
    let mut total: u32 = 0;
    for i in 0..bytes.len() / 2 {
        total += u32::from(u16::from_be_bytes([bytes[2 * i], bytes[2 * i + 1]]));
    }
    u16::MAX - folded(total)
}

/// A sum whose carries are added at the bottom, until none is left.
#[inline(always)]
fn folded(total: u32) -> u16
    ensures folds { (k : ℕ) × (total ≡ result + 65535 * k) }
    ensures zero { (result ≡ 0) ↔ (total ≡ 0) }
{
    let once = total % 65536 + total / 65536;
    let twice = once % 65536 + once / 65536;
    twice as u16
}

/// The law of what a sum of this kind sees of one word.
///
/// A sum can't tell 0000 from FFFF in one word. It can't see that two words are exchanged, nor
/// changes of several words that cancel.
pub fn law_one_word()
    // Words that differ in one place have different checksums, except for 0000 in one and FFFF in
    // the other. So the sum shows each change of one bit of packet and trailer.
    ensures { SeesOneWord }
{}
