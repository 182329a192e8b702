//! An argument of a subcommand, and how many words clap takes for it.
ghost use Rattle.std.specs.Prelude.{◌≡◌, false};
ghost use Rattle.clap.specs.Words.{rule_of};
ghost use Rattle.chaosd_line.specs.Plan.{rule_of_word};

use clap::{Arg, ArgAction};
use std::alloc::Global;

/// How many words clap takes for an argument.
pub(crate) enum Arity<'a> {
    /// One of them at least.
    Several,
    /// An option, with the name of its value, and the value that stands where it isn't given.
    Default(&'a str, &'a str),
    /// An option that need not be given, with the name of its value.
    Optional(&'a str),
    /// The same, with a letter that is its short name.
    ShortOptional(char, &'a str),
    /// A flag.
    Flag,
    /// A flag with a letter that is its short name.
    ShortFlag(char),
    /// The same, which help doesn't show.
    HiddenFlag(char),
}

/// An argument of a subcommand: its place or its name as an option, its arity, and its help.
pub(crate) struct Argument<'a>(pub(crate) &'a str, pub(crate) Arity<'a>, pub(crate) &'a str);

/// The argument for clap.
pub(crate) fn arg_of<'a>(alloc: Global, word: &Argument<'a>) -> Arg<'a>
    ensures rule { rule_of result ≡ rule_of_word word.now }
    ensures local { result.global ≡ false }
{
    let arg = Arg::new(alloc, word.0).help(word.2);
    match word.1 {
        Arity::Several => arg.num_args(1..).required(true),
        Arity::Default(name, value) => arg.long(word.0).value_name(name).default_value(value),
        Arity::Optional(name) => arg.long(word.0).value_name(name),
        Arity::ShortOptional(letter, name) => arg.long(word.0).short(letter).value_name(name),
        Arity::Flag => arg.long(word.0).action(ArgAction::SetTrue),
        Arity::ShortFlag(letter) => arg.long(word.0).short(letter).action(ArgAction::SetTrue),
        Arity::HiddenFlag(letter) => arg
            .long(word.0)
            .short(letter)
            .hide(true)
            .action(ArgAction::SetTrue),
    }
}
