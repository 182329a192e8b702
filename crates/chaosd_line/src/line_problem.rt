//! Why the values of a line can't be read.
ghost use Rattle.std.specs.Prelude.{◌≡◌};

use crate::bad_value::{BadValue, Clash};
use std::alloc::AllocError;

/// Why the values of a line can't be read.
#[derive(Drop)]
pub(crate) enum LineProblem<'a> {
    /// A word is not of its form.
    Bad(BadValue<'a>),
    /// Two local files would go under one path.
    Clash(Clash<'a>),
    /// Memory ran out while the words were kept.
    NoMemory,
}

impl<'a> From<BadValue<'a>> for LineProblem<'a> {
    ghost use Rattle.chaosd_line.specs.declared.line_problem.LineProblem.TheVariants.{Bad};

    ghost from_gives = { λ bad problem. problem ≡ Bad bad };

    fn from(bad: BadValue<'a>) -> LineProblem<'a> {
        LineProblem::Bad(bad)
    }
}

impl<'a> From<AllocError> for LineProblem<'a> {
    ghost use Rattle.chaosd_line.specs.declared.line_problem.LineProblem.TheVariants.{NoMemory};

    ghost from_gives = { λ _ problem. problem ≡ NoMemory };

    fn from(_error: AllocError) -> LineProblem<'a> {
        LineProblem::NoMemory
    }
}
