//! The laws of opening.
ghost use Rattle.chaos_seal.specs.Law.{IsOpened, IsSafe};
ghost use Rattle.chaos_seal.specs.Rising.{SomethingRises};
ghost use Rattle.chaos_seal.specs.Vector.{IsVector};

/// The law of what is handed up, over the definitions alone.
pub fn law_handed_up()
    // What is handed up was sealed by its host for this run of the receiver, each datagram at most
    // once. The sessions of a host never go back, and within a session each datagram lies fewer than
    // 256 behind each one handed up before. The one premise is that without the key nobody makes a
    // right tag.
    ensures { IsSafe }
{}

/// The law that the premises of [`law_handed_up`] can be met.
pub fn law_rises()
    // A host seals a datagram of its own packets, with whatever key. The datagram comes twice to
    // another host, which may be closed. The premises of [`law_handed_up`] hold. The datagram is
    // handed up, and its copy is refused. A datagram that carries a request is an example.
    ensures { SomethingRises }
{}

/// The law of what is opened, over the definitions alone.
pub fn law_opened()
    // Whatever a host with a key sealed for this one is opened, with exactly the numbers and the
    // payload that the host sealed.
    ensures { IsOpened }
{}

/// A vector: one sealed datagram, byte by byte.
pub fn law_vector()
    // The definitions of the form, of HMAC and of SHA-256 give the bytes of a datagram that was put
    // together outside, with a tag that Python computed.
    ensures { IsVector }
{}
