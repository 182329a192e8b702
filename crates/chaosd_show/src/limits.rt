//! The sizes that `show` keeps to, each with its unit.
ghost use Rattle.std.specs.Prelude.{◌≡◌};
ghost use Rattle.chaosd_show.specs.declared.limits.TheConstants.{SHOW_LINE_LIMIT, SHOW_KEPT_LEN};

/// The most bytes of a line of `show`, without the byte that ends it and a carriage return before
/// that: the greatest datagram, of 2,020 bytes, fits with a blank behind each pair of digits.
pub const SHOW_LINE_LIMIT: usize = 8_192;

/// How many bytes of such a line are kept: as many as it may have, a carriage return, and one more,
/// which shows that it is too long.
pub const SHOW_KEPT_LEN: usize = SHOW_LINE_LIMIT + 2;

/// The limits of a line of `show` as numerals.
pub fn law_limits()
    // A line of `show` has at most 8,192 bytes.
    ensures show_line { SHOW_LINE_LIMIT ≡ 8192 }
    // Of each line 8,194 bytes are kept.
    ensures show_kept { SHOW_KEPT_LEN ≡ 8194 }
{}
