//! A packet from its words.
ghost use Rattle.std.specs.Prelude.{◌≡◌, ◌+◌, ◌≤◌, ℕ, length, take, IfOk, Ok, Some, None, MatchResult};
ghost use Rattle.chaos_packet.specs.Packet.{PacketView};
ghost use Rattle.chaos_packet.specs.Words.{Spells, halves, words_for, count_of, packet_at, words_fault, AtMostOnePacket};

use crate::fault::PacketFault;
use crate::item::body_of;
use crate::limits::{HEADER_WORDS, MAX_DATA};
use crate::number::PktNum;
use crate::opcode::Opcode;
use crate::packet::Packet;
use arrayvec::ArrayVec;

/// The packet at the front of the words, and how many words it takes. Words behind the packet are
/// not looked at.
///
/// The low half of word 0 is ignored. With an odd count the high half of the last word is ignored
/// too. The cost is that of copying the data bytes, by whole words. Nothing is allocated.
///
/// # Errors
/// The first fault, in the order of [`PacketFault`]. The number of words and word 1 alone decide
/// it.
pub fn from_words(words: &[u16]) -> Result<(Packet, usize), PacketFault>
    // The words that are taken spell the packet, and there are no more of them than there are
    // words.
    ensures spelled { IfOk result
        (λ r. (r.1 ≤ length words.now) × Spells r.0 (take r.1 words.now)) }

    // Whatever packet the first words spell is read.
    ensures only { (p : PacketView) (n : ℕ) → n ≤ length words.now → Spells p (take n words.now) →
        result ≡ Ok (p, n) }

    // A refusal is the first fault, and there is none where a packet is read.
    ensures fault { MatchResult result (λ _. words_fault words.now ≡ None)
        (λ f. words_fault words.now ≡ Some f) }

    // For callers that compute: the packet and its length are functions of the words.
    ensures packet { IfOk result (λ r. r.0 ≡ packet_at words.now) }
    ensures used { IfOk result (λ r. r.1 ≡ HEADER_WORDS + words_for (count_of words.now)) }
{
    if words.len() < HEADER_WORDS {
        return Err(PacketFault::Short);
    }
    let count = usize::from(words[1] % 4096);
    if count > MAX_DATA {
        return Err(PacketFault::BadCount);
    }
    let used = HEADER_WORDS + (count + 1) / 2;
    if words.len() < used {
        return Err(PacketFault::Truncated);
    }
    let packet = Packet {
        op: Opcode((words[0] / 256) as u8),
        fwd: (words[1] / 4096) as u8,
        dst: words[2],
        dst_index: words[3],
        src: words[4],
        src_index: words[5],
        num: PktNum(words[6]),
        ack: PktNum(words[7]),
        body: data_of(&words[HEADER_WORDS..used], count),
    };
    Ok((packet, used))
}

/// The first `count` bytes that the words hold.
fn data_of(words: &[u16], count: usize) -> ArrayVec<u8, MAX_DATA>
    requires small { count ≤ MAX_DATA }
    requires size { length words.now ≡ words_for count }
    ensures { result.items ≡ take count (halves words.now) }
{
    let mut bytes = [0; MAX_DATA];
    for i in 0..words.len() {
        bytes[2 * i] = (words[i] % 256) as u8;
        bytes[2 * i + 1] = (words[i] / 256) as u8;
    }
    body_of(&bytes[..count])
}

/// The law that words are read in one way at most.
pub fn law_spells()
    // Words spell at most one packet.
    ensures { AtMostOnePacket }
{}
