//! The files of a line, of which some are the server's and some are local.
ghost use Rattle.std.specs.Prelude.{◌≡◌, map};
ghost use Rattle.std.specs.List.{list_all, list_any};
ghost use Rattle.std.specs.Str.{bytes_eq};
ghost use Rattle.chaos_file.specs.Names.{is_path};
ghost use Rattle.chaosd_line.specs.Files.{are_distinct, are_paths, bad_path, first_repeated, last_of};

use chaos_file::is_path;

/// What stands behind a text's last slash, and the whole where it has none.
pub(crate) fn last_name(text: &[u8]) -> &[u8]
    ensures { result.now ≡ last_of text.now }
{
    let mut start = 0;
    for i in 0..text.len() {
        if text[i] == b'/' {
            start = i + 1;
        }
    }
    &text[start..]
}

/// Whether a last name is that of one of these texts.
fn is_among(name: &[u8], texts: &[&str]) -> bool
    ensures { result ≡ list_any (λ t. bytes_eq (last_of t.now) name.now) texts.now }
{
    texts.iter().any(|t| last_name(t.as_bytes()) == name)
}

/// Whether no two texts have one last name.
fn are_distinct(texts: &[&str]) -> bool
    ensures { result ≡ are_distinct (map (λ t. t.now) texts.now) }
{
    for i in 0..texts.len() {
        if is_among(last_name(texts[i].as_bytes()), &texts[i + 1..]) {
            return false;
        }
    }
    true
}

/// Whether each text is a path of FILE.
fn all_paths(texts: &[&str]) -> bool
    ensures { result ≡ list_all (λ t. is_path t.now) texts.now }
{
    texts.iter().all(|t| is_path(t.as_bytes()))
}

/// Whether the texts are paths of FILE, each once.
pub(crate) fn are_paths(texts: &[&str]) -> bool
    ensures { result ≡ are_paths (map (λ t. t.now) texts.now) }
{
    all_paths(texts) && are_distinct(texts)
}

/// The first text whose last name is that of a later one.
fn repeated<'a>(texts: &[&'a str]) -> &'a str
    ensures { result.now ≡ first_repeated (map (λ t. t.now) texts.now) }
{
    for i in 0..texts.len() {
        if is_among(last_name(texts[i].as_bytes()), &texts[i + 1..]) {
            return texts[i];
        }
    }
    ""
}

/// The first text that is no path, else the first that stands there again, to be named in a
/// mistake.
pub(crate) fn bad_path<'a>(texts: &[&'a str]) -> &'a str
    ensures { result.now ≡ bad_path (map (λ t. t.now) texts.now) }
{
    for i in 0..texts.len() {
        if !is_path(texts[i].as_bytes()) {
            return texts[i];
        }
    }
    repeated(texts)
}
