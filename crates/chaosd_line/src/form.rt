//! Forms of words, and the readers of the words of a line.
ghost use Rattle.std.specs.Prelude.{◌≡◌, ⊤, IfOk, IfSome, Option, map, option_map, true};
ghost use Rattle.std.specs.Result.{result_ok};
ghost use Rattle.clap.specs.Words.{Text, first_of, found_of, rows_of};
ghost use Rattle.chaosd_line.specs.Values.{given, given_if, takes, word_of, words_of};

use crate::bad_value::BadValue;
use crate::word::Word;
use clap::ArgMatches;

/// A form of words that stand for values.
pub(crate) trait Form {
    /// What a word of the form stands for.
    type Value;

    /// The value that a text stands for.
    ghost reads: { Self → Text → Option Self.Value };

    /// What holds of each such value.
    ghost fits: { Self → Self.Value → Type 0 } = { λ _ _. ⊤ };

    /// What a message says that it expected.
    fn expected(&self) -> &'static str;

    /// The value that a text stands for.
    fn value_of(&self, text: &str) -> Option<Self::Value>
        ensures value { result ≡ reads self.now text.now }
        ensures fits { IfSome result (fits self.now) };
}

/// The word at a place, if there is one.
pub(crate) fn optional<'a>(matches: &ArgMatches<'a>, place: &str) -> Option<&'a str>
    ensures { option_map (λ t. t.now) result ≡ first_of place.now (rows_of (found_of matches.now)) }
{
    matches.get_str(place)
}

/// All words at a place.
pub(crate) fn words_at<'m, 'a>(matches: &'m ArgMatches<'a>, place: &str) -> &'m [&'a str]
    ensures { map (λ t. t.now) result.now ≡ words_of place.now (rows_of (found_of matches.now)) }
{
    matches.get_strs(place).unwrap_or_default()
}

/// The word at a place. That there is a word is clap's care; the message about a missing one says
/// what it expected.
fn needed<'a>(
    matches: &ArgMatches<'a>,
    place: &'a str,
    expected: &'a str,
) -> Result<&'a str, BadValue<'a>>
    ensures { option_map (λ t. t.now) (result_ok result)
        ≡ first_of place.entry.now (rows_of (found_of matches.now)) }
{
    match optional(matches, place) {
        Some(text) => Ok(text),
        None => Err(BadValue::new("", place, expected)),
    }
}

/// The value of the word at a place.
#[tactic(auto, unfolding(crate::specs::Values::given))]
pub(crate) fn value<'a, F: Form>(
    matches: &ArgMatches<'a>,
    place: &'a str,
    form: &F,
) -> Result<F::Value, BadValue<'a>>
    ensures value { result_ok result
        ≡ given (F.reads form.now) place.entry.now (rows_of (found_of matches.now)) }
    ensures fits { IfOk result (F.fits form.now) }
{
    let text = needed(matches, place, form.expected())?;
    match form.value_of(text) {
        Some(value) => Ok(value),
        None => Err(BadValue::new(text, place, form.expected())),
    }
}

/// The value of the word at a place, if there is one.
#[tactic(auto, unfolding(crate::specs::Values::given, crate::specs::Values::given_if))]
pub(crate) fn optional_value<'a, F: Form>(
    matches: &ArgMatches<'a>,
    place: &'a str,
    form: &F,
) -> Result<Option<F::Value>, BadValue<'a>>
    ensures value { result_ok result
        ≡ given_if (F.reads form.now) place.entry.now (rows_of (found_of matches.now)) }
    ensures fits { IfOk result (λ o. IfSome o (F.fits form.now)) }
{
    if optional(matches, place).is_none() {
        return Ok(None);
    }
    Ok(Some(value(matches, place, form)?))
}

/// The word at a place that stands for itself.
#[tactic(auto, unfolding(crate::specs::Values::given, crate::specs::Values::word_of))]
pub(crate) fn word<'a>(
    matches: &ArgMatches<'a>,
    place: &'a str,
    form: Word,
) -> Result<&'a str, BadValue<'a>>
    ensures value { option_map (λ t. t.now) (result_ok result)
        ≡ given (word_of form) place.entry.now (rows_of (found_of matches.now)) }
    ensures fits { IfOk result (λ t. takes form t.now ≡ true) }
{
    let text = needed(matches, place, form.expected())?;
    if form.takes(text.as_bytes()) {
        Ok(text)
    } else {
        Err(BadValue::new(text, place, form.expected()))
    }
}
