//! The files of a server that a line names, and where `get` writes them.
ghost use Rattle.std.specs.Prelude.{◌≡◌, IfOk, map, option_map};
ghost use Rattle.std.specs.List.{list_all};
ghost use Rattle.std.specs.Result.{result_ok};
ghost use Rattle.chaosd_line.specs.Files.{bad_path};
ghost use Rattle.chaosd_line.specs.Hosts.{is_at, part_in};
ghost use Rattle.chaosd_line.specs.Lines.{Answers};
ghost use Rattle.chaosd_line.specs.Remote.{file_paths, file_words, first_host, has_local, local_word, local_words, names_one_host, new_path, old_path, output_with, remote_words};

use crate::bad_value::{
    BadValue, HOST_PATH_FORM, ONE_HOST_FORM, ONE_PLACE, PATH_FORM, PATH_ONCE_FORM, PATTERN_FORM,
    Problem, STAYS_FORM,
};
use crate::files::{are_paths, bad_path};
use crate::host_names::{has_colon, host_in, is_at, part_in};
use crate::line_problem::LineProblem;
use crate::places::{
    Place, is_long, last_text_at, last_word, needed_at, some_words, word_at, words_before_last,
    words_from,
};
use crate::word::Word;
use chaos_file::is_path;
use std::alloc::{AllocError, Global};

/// The files of the server in the long form.
const PATH: Place = Place {
    index: 3,
    name: "PATH",
    beside: "behind SERVER",
};

/// The local files in the long form.
const LOCAL: Place = Place {
    index: 3,
    name: "LOCAL",
    beside: "behind SERVER",
};

/// The local files in the short form.
const LOCAL_FIRST: Place = Place {
    index: 0,
    name: "LOCAL",
    beside: "in front of HOST:",
};

/// The file to rename in the long form.
const OLD: Place = Place {
    index: 3,
    name: "OLD",
    beside: "behind SERVER",
};

/// Its new path in the long form.
const NEW: Place = Place {
    index: 4,
    name: "NEW",
    beside: "behind OLD",
};

/// Its new path in the short form.
const NEW_SECOND: Place = Place {
    index: 1,
    name: "NEW",
    beside: "behind HOST:OLD",
};

/// The host that the first word names, in front of its first colon.
fn first_host<'a>(words: &[&'a str]) -> &'a str
    ensures { result.now ≡ first_host (map (λ t. t.now) words.now) }
{
    match word_at(words, 0) {
        Some(word) => host_in(word),
        None => "",
    }
}

/// Whether each word names this host in front of a colon.
fn all_at(host: &str, words: &[&str]) -> bool
    ensures { result ≡ list_all (λ t. is_at host.now t.now) words.now }
{
    words.iter().all(|word| is_at(host, word))
}

/// Whether each word names the host of the first one.
fn names_one_host(words: &[&str]) -> bool
    ensures { result ≡ names_one_host (map (λ t. t.now) words.now) }
{
    all_at(first_host(words), words)
}

/// What is wrong with words of which one doesn't name the host of the first one.
fn other_host<'a>(words: &[&'a str]) -> BadValue<'a> {
    let host = first_host(words);
    let text = words
        .iter()
        .copied()
        .find(|word| !is_at(host, word))
        .unwrap_or("");
    let form = if has_colon(text) {
        ONE_HOST_FORM
    } else {
        HOST_PATH_FORM
    };
    BadValue::new(text, "HOST:PATH", form)
}

/// The words, kept.
fn kept<'a>(alloc: Global, words: &[&'a str]) -> Result<Vec<&'a str>, AllocError>
    ensures { IfOk result (λ v. map (λ t. t.now) v.items ≡ map (λ t. t.now) words.now) }
{
    let mut kept = Vec::new(alloc);
    kept.extend_from_slice(words)?;
    Ok(kept)
}

/// What stands behind the host in each word.
fn parts_in<'a>(alloc: Global, words: &[&'a str]) -> Result<Vec<&'a str>, AllocError>
    ensures { IfOk result (λ v. map (λ t. t.now) v.items ≡ map part_in (map (λ t. t.now) words.now)) }
{
    let mut parts = Vec::new(alloc);
    for word in words {
        parts.push(part_in(word))?;
    }
    Ok(parts)
}

/// The words that are to be paths of the server's files.
fn file_words<'a>(alloc: Global, words: &[&'a str]) -> Result<Vec<&'a str>, LineProblem<'a>>
    ensures { Answers (λ v. map (λ t. t.now) v.items) (file_words (map (λ t. t.now) words.now))
        result }
{
    if is_long(words) {
        let paths = some_words(words_from(words, 3), PATH)?;
        return Ok(kept(alloc, paths)?);
    }
    if !names_one_host(words) {
        return Err(LineProblem::Bad(other_host(words)));
    }
    Ok(parts_in(alloc, words)?)
}

/// Whether a text would match several names, were it a pattern.
fn is_pattern(text: &str) -> bool {
    text.contains('*') || text.contains('?')
}

/// What is wrong with a text at this place that is no path, or stands in the line twice.
fn bad_path_at<'a>(text: &'a str, place: &'a str) -> BadValue<'a>
    ensures { result.text ≡ text.entry }
{
    let form = if is_pattern(text) {
        PATTERN_FORM
    } else if is_path(text.as_bytes()) {
        PATH_ONCE_FORM
    } else {
        PATH_FORM
    };
    BadValue::new(text, place, form)
}

/// What is wrong with words of which one is no path, or stands there twice.
fn bad_paths<'a>(words: &[&'a str]) -> BadValue<'a>
    ensures { result.text.now ≡ bad_path (map (λ t. t.now) words.now) }
{
    bad_path_at(bad_path(words), "PATH")
}

/// The same mistake in a line of these words. In the short form, an empty path is missing behind
/// its host.
fn missing_path<'a>(words: &[&'a str], bad: BadValue<'a>) -> BadValue<'a> {
    if bad.text.is_empty() && !is_long(words) {
        BadValue::missing(bad.place, "behind HOST:")
    } else {
        bad
    }
}

/// The paths of the server's files: legal paths of FILE, each once.
#[tactic(auto, unfolding(crate::specs::Remote::file_paths))]
pub(crate) fn file_paths<'a>(
    alloc: Global,
    words: &[&'a str],
) -> Result<Vec<&'a str>, LineProblem<'a>>
    ensures { Answers (λ v. map (λ t. t.now) v.items) (file_paths (map (λ t. t.now) words.now))
        result }
{
    let paths = file_words(alloc, words)?;
    if are_paths(paths.as_slice()) {
        Ok(paths)
    } else {
        Err(LineProblem::Bad(missing_path(words, bad_paths(paths.as_slice()))))
    }
}

/// Whether the last word of `get` says where the files go.
fn has_local(words: &[&str]) -> bool
    ensures { result ≡ has_local (map (λ t. t.now) words.now) }
{
    match last_word(words) {
        Some(word) => !is_long(words) && !has_colon(word),
        None => false,
    }
}

/// The words of `get` but for the one that says where the files go.
pub(crate) fn remote_words<'m, 'a>(words: &'m [&'a str]) -> &'m [&'a str]
    ensures { map (λ t. t.now) result.now ≡ remote_words (map (λ t. t.now) words.now) }
{
    if has_local(words) {
        words_before_last(words)
    } else {
        words
    }
}

/// The last word of `get`, unless it is the current folder.
fn local_word<'a>(words: &[&'a str]) -> Option<&'a str>
    ensures { option_map (λ t. t.now) result ≡ local_word (map (λ t. t.now) words.now) }
{
    let word = last_word(words)?;
    if word == "." { None } else { Some(word) }
}

/// Where the files of `get` go, by the word of `--output` and the others.
#[tactic(auto, unfolding(crate::specs::Remote::output_with))]
pub(crate) fn output_with<'a>(
    given: Option<&'a str>,
    words: &[&'a str],
) -> Result<Option<&'a str>, BadValue<'a>>
    ensures { option_map (option_map (λ t. t.now)) (result_ok result)
        ≡ output_with (option_map (λ t. t.now) given.entry) (map (λ t. t.now) words.now) }
{
    if !has_local(words) {
        return Ok(given);
    }
    match given {
        Some(output) => Err(BadValue::misfit(output, "output", ONE_PLACE)),
        None => Ok(local_word(words)),
    }
}

/// The path of the file that is renamed.
#[tactic(auto, unfolding(crate::specs::Values::word_of))]
pub(crate) fn old_path<'a>(words: &[&'a str]) -> Result<&'a str, BadValue<'a>>
    ensures { option_map (λ t. t.now) (result_ok result) ≡ old_path (map (λ t. t.now) words.now) }
{
    let path = if is_long(words) {
        needed_at(words, OLD)?
    } else {
        part_in(word_at(words, 0).unwrap_or(""))
    };
    if Word::Path.takes(path.as_bytes()) {
        Ok(path)
    } else {
        Err(missing_path(words, bad_path_at(path, OLD.name)))
    }
}

/// What is wrong with the word of a new path. A word with a colon was to name a host too.
fn bad_new_path<'a>(bad: BadValue<'a>) -> BadValue<'a> {
    match bad.problem {
        Problem::Form(_) if has_colon(bad.text) => BadValue::new(bad.text, bad.place, STAYS_FORM),
        _ => bad,
    }
}

/// The last word, as a new path.
fn last_path<'a>(words: &[&'a str]) -> Result<&'a str, BadValue<'a>>
    ensures { option_map (λ t. t.now) (result_ok result) ≡ new_path (map (λ t. t.now) words.now) }
{
    if is_long(words) {
        last_text_at(words, NEW, Word::Path)
    } else {
        last_text_at(words, NEW_SECOND, Word::Path)
    }
}

/// Its new path, behind which no word stands.
pub(crate) fn new_path<'a>(words: &[&'a str]) -> Result<&'a str, BadValue<'a>>
    ensures { option_map (λ t. t.now) (result_ok result) ≡ new_path (map (λ t. t.now) words.now) }
{
    match last_path(words) {
        Ok(path) => Ok(path),
        Err(bad) => Err(bad_new_path(bad)),
    }
}

/// The local files of `put`.
pub(crate) fn local_words<'m, 'a>(words: &'m [&'a str]) -> Result<&'m [&'a str], BadValue<'a>>
    ensures { option_map (λ ws. map (λ t. t.now) ws.now) (result_ok result)
        ≡ local_words (map (λ t. t.now) words.now) }
{
    if is_long(words) {
        some_words(words_from(words, 3), LOCAL)
    } else {
        some_words(words_before_last(words), LOCAL_FIRST)
    }
}
