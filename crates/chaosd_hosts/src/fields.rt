//! The fields of a line of a table.
ghost use Rattle.std.specs.Prelude.{◌≡◌, ◌∷◌, [], ◌<◌, IfSome, MatchOption, length, option_map, position};
ghost use Rattle.std.specs.List.{after_first, before_first, list_any};
ghost use Rattle.chaosd_hosts.specs.Fields.{before_comment, fields_of, is_blank, key_file, keys_among, names_among, names_key};
ghost use Rattle.chaosd_hosts.specs.Names.{is_same_name};

use crate::addresses::sides_of;
use crate::names::is_same_name;

/// What stands before the `=` of a field that names a key file.
const KEY: &str = "key";

/// Whether a byte separates fields: a space or a tab.
fn is_blank(byte: u8) -> bool
    ensures { result ≡ is_blank byte }
{
    byte == b' ' || byte == b'\t'
}

/// What stands before a line's comment, which the first `#` begins.
pub(crate) fn before_comment(line: &str) -> &str
    ensures { result.now ≡ before_comment line.now }
{
    match line.split_once('#') {
        Some((before, _)) => before,
        None => line,
    }
}

/// Where the first blank stands, or the length where there is none.
fn first_blank(text: &str) -> Option<usize>
    ensures { result ≡ position is_blank text.now }
{
    text.as_bytes().iter().position(|byte| is_blank(*byte))
}

/// What stands before the first blank, and what stands behind it.
fn cut_at_blank(text: &str) -> (&str, &str)
    ensures before { result.0.now ≡ before_first is_blank text.now }
    ensures behind { result.1.now ≡ after_first is_blank text.now }
{
    match first_blank(text) {
        Some(at) => (&text[..at], &text[at + 1..]),
        None => (text, ""),
    }
}

/// The first field of a text, and what stands behind the field.
pub(crate) fn next_field(text: &str) -> Option<(&str, &str)>
    ensures fields { MatchOption result
        (fields_of text.now ≡ [])
        (λ cut. fields_of text.now ≡ cut.0.now ∷ fields_of cut.1.now) }
    ensures shorter { IfSome result (λ cut. length cut.1.now < length text.now) }
{
    let mut rest = text;
    while !rest.is_empty() {
        let (part, behind) = cut_at_blank(rest);
        if !part.is_empty() {
            return Some((part, behind));
        }
        rest = behind;
    }
    None
}

/// The file that a field names as the one of a key.
#[tactic(auto, unfolding(crate::specs::Fields::key_file))]
pub(crate) fn key_file(field: &str) -> Option<&str>
    ensures { option_map (λ file. file.now) result ≡ key_file field.now }
{
    let (left, file) = sides_of(field)?;
    if left == KEY { Some(file) } else { None }
}

/// Whether a field names a key file.
fn names_key(field: &str) -> bool
    ensures { result ≡ names_key field.now }
{
    key_file(field).is_some()
}

/// The first field of a text that names no key file, and what stands behind the field.
#[tactic(auto, unfolding(crate::specs::Fields::names_among))]
pub(crate) fn next_name(text: &str) -> Option<(&str, &str)>
    ensures fields { MatchOption result
        (names_among (fields_of text.now) ≡ [])
        (λ cut. names_among (fields_of text.now) ≡ cut.0.now ∷ names_among (fields_of cut.1.now)) }
    ensures shorter { IfSome result (λ cut. length cut.1.now < length text.now) }
{
    let mut rest = text;
    while let Some((field, behind)) = next_field(rest) {
        if !names_key(field) {
            return Some((field, behind));
        }
        rest = behind;
    }
    None
}

/// The first field of a text that names a key file, and what stands behind the field.
#[tactic(auto, unfolding(crate::specs::Fields::keys_among))]
pub(crate) fn next_key(text: &str) -> Option<(&str, &str)>
    ensures { MatchOption result
        (keys_among (fields_of text.now) ≡ [])
        (λ cut. keys_among (fields_of text.now) ≡ cut.0.now ∷ keys_among (fields_of cut.1.now)) }
{
    let mut rest = text;
    while let Some((field, behind)) = next_field(rest) {
        if names_key(field) {
            return Some((field, behind));
        }
        rest = behind;
    }
    None
}

/// Whether one of a text's fields is this name, and names no key file.
pub(crate) fn has_name(text: &str, name: &str) -> bool
    ensures { result ≡ list_any (is_same_name name.now) (names_among (fields_of text.now)) }
{
    let mut rest = text;
    while let Some((field, behind)) = next_name(rest) {
        if is_same_name(name, field) {
            return true;
        }
        rest = behind;
    }
    false
}
