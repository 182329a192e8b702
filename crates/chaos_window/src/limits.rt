//! The sizes of a window.
ghost use Rattle.std.specs.Prelude.{◌≡◌};
ghost use Rattle.chaos_window.specs.declared.limits.TheConstants.{MAX_WINDOW};

/// The greatest window, in items.
pub const MAX_WINDOW: u16 = 64;

/// The limit as a numeral.
pub fn law_limits()
    // The greatest window is 64 items.
    ensures { MAX_WINDOW ≡ 64 }
{}
