//! What the data of a request say.
ghost use Rattle.std.specs.Prelude.{◌≡◌, ◌==◌, position};
ghost use Rattle.chaos_packet.specs.Request.{contact_in, arguments_in};

/// The contact name in the data of an RFC, lent.
pub fn contact_in(bytes: &[u8]) -> &[u8]
    // The contact is the bytes before the first space. Without a space it is all bytes.
    ensures { result.now ≡ contact_in bytes.now }
{
    match first_space(bytes) {
        Some(place) => &bytes[..place],
        None => bytes,
    }
}

/// The arguments behind the contact name in the data of an RFC, lent.
pub fn arguments_in(bytes: &[u8]) -> &[u8]
    // The arguments are the bytes after the first space. Without a space there are none.
    ensures { result.now ≡ arguments_in bytes.now }
{
    match first_space(bytes) {
        Some(place) => &bytes[place + 1..],
        None => &[],
    }
}

/// Where the first space stands.
fn first_space(bytes: &[u8]) -> Option<usize>
    ensures { result ≡ position (λ b. b == 32) bytes.now }
{
    bytes.iter().position(|b| *b == b' ')
}
