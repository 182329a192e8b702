//! The command that clap reads the words by.
ghost use Rattle.std.specs.Prelude.{◌≡◌, IfOk, false, map};
ghost use Rattle.clap.specs.Words.{app_of, new_app};
ghost use Rattle.clap.specs.declared.builder.command.Command.TheViews.{out-Command};
ghost use Rattle.chaosd_line.specs.CommandLine.{bare_chaosd, chaosd, with_rules, with_subs};
ghost use Rattle.chaosd_line.specs.Plan.{app_of_sub, rule_of_word};

use crate::argument::{Argument, arg_of};
use crate::help;
use crate::sub::{Sub, SubName, sub_names, sub_of};
use clap::Command;
use std::alloc::{AllocError, Global};

/// Adds words, one after another.
fn with_words<'a>(
    alloc: Global,
    command: Command<'a>,
    words: &[Argument<'a>],
) -> Result<Command<'a>, AllocError>
    requires { (out-Command command).has_globals ≡ false }
    ensures app { IfOk result
        (λ c. app_of c ≡ with_rules (app_of command.entry) (map rule_of_word words.now)) }
    ensures local { IfOk result (λ c. (out-Command c).has_globals ≡ false) }
{
    let mut full = command;
    for word in words {
        full = full.arg(arg_of(alloc, word))?;
    }
    Ok(full)
}

/// A subcommand without its words.
fn named<'a>(alloc: Global, sub: &Sub) -> Command<'a>
    ensures app { app_of result ≡ new_app sub.now.name.now }
    ensures local { (out-Command result).has_globals ≡ false }
{
    let command = Command::new(alloc, sub.name).about(sub.about);
    let command = match sub.example {
        Some(example) => command.after_help(example),
        None => command,
    };
    match sub.usage {
        Some(usage) => command.override_usage(usage),
        None => command,
    }
}

/// A subcommand, with its words and its help.
fn subcommand<'a>(alloc: Global, sub: &Sub) -> Result<Command<'a>, AllocError>
    ensures app { IfOk result (λ c. app_of c ≡ app_of_sub sub.now) }
    ensures local { IfOk result (λ c. (out-Command c).has_globals ≡ false) }
{
    with_words(alloc, named(alloc, sub), sub.words)
}

/// The program's own command, with its help text and no subcommand.
fn bare<'a>(alloc: Global) -> Result<Command<'a>, AllocError>
    ensures { IfOk result (λ c. app_of c ≡ bare_chaosd) }
{
    Command::new(alloc, "chaosd")
        .about(help::ABOUT)
        .after_help(help::STATUSES)
        .version(help::VERSION)
        .no_binary_name(true)
        .subcommand_required(true)
        .bin_name("chaosd")
}

/// Adds the subcommands of these names, one after another.
fn with_subs<'a>(
    alloc: Global,
    command: Command<'a>,
    names: &[SubName],
) -> Result<Command<'a>, AllocError>
    ensures { IfOk result (λ c. app_of c ≡ with_subs (app_of command.entry) names.now) }
{
    let mut full = command;
    for name in names {
        let nested = subcommand(alloc, sub_of(name))?;
        full = full.subcommand(nested)?;
    }
    Ok(full)
}

/// The command with all its subcommands and the texts of its help.
pub(crate) fn command<'a>(alloc: Global) -> Result<Command<'a>, AllocError>
    ensures { IfOk result (λ c. app_of c ≡ chaosd) }
{
    let top = bare(alloc)?;
    with_subs(alloc, top, sub_names())
}

/// The subcommand of a name, where there is one.
fn sub_called(name: &str) -> Option<&'static Sub> {
    for one in sub_names() {
        let sub = sub_of(one);
        if sub.name == name {
            return Some(sub);
        }
    }
    None
}

/// The names, in its usage, of the words that the subcommand of this name needs.
pub(crate) fn needs_of(name: &str) -> Option<&'static str> {
    sub_called(name)?.needs
}

/// The command whose usage helps with a bad word: the subcommand of this name, or else the whole.
pub(crate) fn command_of<'a>(alloc: Global, name: Option<&str>) -> Result<Command<'a>, AllocError> {
    match sub_called(name.unwrap_or("")) {
        Some(sub) => subcommand(alloc, sub)?.bin_name(sub.shown),
        None => command(alloc),
    }
}
