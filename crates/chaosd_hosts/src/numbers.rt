//! Numbers as texts write them.
ghost use Rattle.std.specs.Prelude.{◌≡◌, ◌≤◌, IfSome};
ghost use Rattle.chaosd_hosts.specs.Numbers.{is_padded, number_of};

/// The number that digits of this radix write, within these bounds.
#[tactic(auto, unfolding(crate::specs::Numbers::number_of))]
pub fn number_of(text: &str, radix: u32, least: u64, most: u64) -> Option<u64>
    requires radix { 2 ≤ radix }
    requires radix_most { radix ≤ 36 }
    // The text is digits of the radix alone, at least one, and the number lies within the bounds;
    // every other text is refused.
    ensures value { result ≡ number_of radix least most text.now }
    // The number is no less than the least and no greater than the most.
    ensures least { IfSome result (λ n. least ≤ n) }
    ensures most { IfSome result (λ n. n ≤ most) }
{
    let bytes = text.as_bytes();
    if bytes.is_empty() || bytes[0] == b'+' {
        return None;
    }
    match u64::from_str_radix(text, radix) {
        Ok(number) if least <= number && number <= most => Some(number),
        _ => None,
    }
}

/// Whether a number is written with a leading zero too many.
pub fn is_padded(text: &str) -> bool
    // The result is true exactly where the text begins with a zero and goes on behind it.
    ensures { result ≡ is_padded text.now }
{
    let bytes = text.as_bytes();
    bytes.len() > 1 && bytes[0] == b'0'
}
