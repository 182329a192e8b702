//! The words of a line, taken apart by their places.
ghost use Rattle.std.specs.Prelude.{◌≡◌, IfOk, drop, map, option_map, slice_get, true};
ghost use Rattle.std.specs.List.{list_all};
ghost use Rattle.std.specs.Char.{is_ascii_digit};
ghost use Rattle.std.specs.Result.{result_ok};
ghost use Rattle.clap.specs.Words.{found_of, rows_of};
ghost use Rattle.chaosd_line.specs.Places.{at, hosts_in, is_digits, is_long, last_at, last_word, some_words, words_before_last, words_in};
ghost use Rattle.chaosd_line.specs.Values.{takes, word_of};

use crate::bad_value::{BadValue, SHORT_FORM};
use crate::form::{Form, optional, words_at};
use crate::word::Word;
use clap::ArgMatches;

/// The place of all words of a line that are no options, by the name that clap knows.
const WORD: &str = "WORD";

/// A place of a word in a line.
#[derive(Clone, Copy)]
pub(crate) struct Place {
    /// How many words stand in front of the place.
    pub(crate) index: u8,
    /// The name that help and messages give the place.
    pub(crate) name: &'static str,
    /// Where it is, by the place beside it.
    pub(crate) beside: &'static str,
}

/// The words of a line that are neither options nor their values.
pub(crate) fn words_in<'m, 'a>(matches: &'m ArgMatches<'a>) -> &'m [&'a str]
    ensures { map (λ t. t.now) result.now ≡ words_in (rows_of (found_of matches.now)) }
{
    words_at(matches, WORD)
}

/// The word at this index, if there is one.
pub(crate) fn word_at<'a>(words: &[&'a str], index: usize) -> Option<&'a str>
    ensures { option_map (λ t. t.now) result ≡ slice_get (map (λ t. t.now) words.now) index }
{
    words.get(index).copied()
}

/// The last word, if there is one.
pub(crate) fn last_word<'a>(words: &[&'a str]) -> Option<&'a str>
    ensures { option_map (λ t. t.now) result ≡ last_word (map (λ t. t.now) words.now) }
{
    word_at(words, words.len().saturating_sub(1))
}

/// The words in front of the last one.
pub(crate) fn words_before_last<'m, 'a>(words: &'m [&'a str]) -> &'m [&'a str]
    ensures { map (λ t. t.now) result.now ≡ words_before_last (map (λ t. t.now) words.now) }
{
    &words[..words.len().saturating_sub(1)]
}

/// The words from this index on.
pub(crate) fn words_from<'m, 'a>(words: &'m [&'a str], index: usize) -> &'m [&'a str]
    ensures { map (λ t. t.now) result.now ≡ drop index (map (λ t. t.now) words.now) }
{
    if words.len() < index {
        &[]
    } else {
        &words[index..]
    }
}

/// Whether all bytes are digits.
fn all_digits(bytes: &[u8]) -> bool
    ensures { result ≡ list_all is_ascii_digit bytes.now }
{
    bytes.iter().all(|b| b.is_ascii_digit())
}

/// Whether a text has digits alone.
fn is_digits(text: &str) -> bool
    ensures { result ≡ is_digits text.now }
{
    let bytes = text.as_bytes();
    !bytes.is_empty() && all_digits(bytes)
}

/// Whether a line is in the long form, which begins with addresses.
pub(crate) fn is_long(words: &[&str]) -> bool
    ensures { result ≡ is_long (map (λ t. t.now) words.now) }
{
    match word_at(words, 0) {
        Some(first) => is_digits(first),
        None => false,
    }
}

/// The word of `--hosts`, if there is one. A line in the long form has none.
pub(crate) fn hosts_in<'a>(matches: &ArgMatches<'a>) -> Result<Option<&'a str>, BadValue<'a>>
    ensures { option_map (option_map (λ t. t.now)) (result_ok result)
        ≡ hosts_in (rows_of (found_of matches.now)) }
{
    match optional(matches, "hosts") {
        Some(file) if is_long(words_in(matches)) => Err(BadValue::misfit(
            file, "hosts", SHORT_FORM,
        )),
        given => Ok(given),
    }
}

/// The word at this place. A message about a missing word names the place.
pub(crate) fn needed_at<'a>(words: &[&'a str], place: Place) -> Result<&'a str, BadValue<'a>>
    ensures { option_map (λ t. t.now) (result_ok result)
        ≡ slice_get (map (λ t. t.now) words.now) place.index }
{
    match word_at(words, usize::from(place.index)) {
        Some(text) => Ok(text),
        None => Err(BadValue::missing(place.name, place.beside)),
    }
}

/// The value of the word at this place.
pub(crate) fn value_at<'a, F: Form>(
    words: &[&'a str],
    place: Place,
    form: &F,
) -> Result<F::Value, BadValue<'a>>
    ensures value { result_ok result
        ≡ at (F.reads form.now) place.index (map (λ t. t.now) words.now) }
    ensures fits { IfOk result (F.fits form.now) }
{
    let text = needed_at(words, place)?;
    match form.value_of(text) {
        Some(value) => Ok(value),
        None => Err(BadValue::new(text, place.name, form.expected())),
    }
}

/// The word at this place, which stands for itself.
#[tactic(auto, unfolding(crate::specs::Values::word_of))]
pub(crate) fn text_at<'a>(
    words: &[&'a str],
    place: Place,
    form: Word,
) -> Result<&'a str, BadValue<'a>>
    ensures value { option_map (λ t. t.now) (result_ok result)
        ≡ at (word_of form) place.index (map (λ t. t.now) words.now) }
    ensures takes { IfOk result (λ t. takes form t.now ≡ true) }
{
    match needed_at(words, place)? {
        text if form.takes(text.as_bytes()) => Ok(text),
        text => Err(BadValue::new(text, place.name, form.expected())),
    }
}

/// The same of the word at the last place of a line: no word stands behind it.
pub(crate) fn last_text_at<'a>(
    words: &[&'a str],
    place: Place,
    form: Word,
) -> Result<&'a str, BadValue<'a>>
    ensures value { option_map (λ t. t.now) (result_ok result)
        ≡ last_at (word_of form) place.index (map (λ t. t.now) words.now) }
{
    let next = usize::from(place.index) + 1;
    if words.len() > next {
        return Err(BadValue::extra(words[next]));
    }
    text_at(words, place, form)
}

/// These words, of which there is one at least.
pub(crate) fn some_words<'m, 'a>(
    words: &'m [&'a str],
    place: Place,
) -> Result<&'m [&'a str], BadValue<'a>>
    ensures { option_map (λ ws. map (λ t. t.now) ws.now) (result_ok result)
        ≡ some_words (map (λ t. t.now) words.now) }
{
    if words.is_empty() {
        return Err(BadValue::missing(place.name, place.beside));
    }
    Ok(words)
}
