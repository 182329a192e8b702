//! What may stand behind each word.
ghost use Rattle.std.specs.Prelude.{◌≡◌, ◌∷◌, ◌++◌, [], codes, option_map};
ghost use Rattle.chaos_file.specs.Grammar.{space, after_front, cut, login_form, open_write_form, open_form, write_form, paths_form, rename_form, delete_form, form_of};
ghost use Rattle.chaos_file.specs.Views.{form_view, FormFits};

use crate::command::{Command, Word};
use crate::limits::{MAX_CHUNK, NL};
use crate::names::{is_path, is_user};
use crate::parse::cut;

/// What stands behind a word.
#[derive(Clone, Copy)]
pub(crate) enum Form<'a> {
    Malformed,
    IllegalPath,
    Formed(Command<'a>),
}

/// What follows this front, where the bytes begin with it.
pub(crate) fn after_front<'a>(front: &[u8], bytes: &'a [u8]) -> Option<&'a [u8]>
    ensures { option_map (λ x. x.now) result ≡ after_front front.now bytes.now }
{
    bytes.strip_prefix(front)
}

fn login_form(bare: bool, rest: &[u8]) -> Form<'_>
    ensures value { form_view result ≡ login_form bare (after_front (space ∷ []) rest.now) }
    ensures fits { FormFits (form_view result) }
{
    match after_front(b" ", rest) {
        Some(name) if bare && is_user(name) => Form::Formed(Command::Login(name)),
        _ => Form::Malformed,
    }
}

fn open_write_form(rest: &[u8]) -> Form<'_>
    ensures value { form_view result
        ≡ open_write_form (after_front (codes " WRITE" ++ NL ∷ []) rest.now) }
    ensures fits { FormFits (form_view result) }
{
    match after_front(b" WRITE\x8d", rest) {
        Some(path) if is_path(path) => Form::Formed(Command::OpenWrite(path)),
        Some(_) => Form::IllegalPath,
        None => Form::Malformed,
    }
}

fn open_form(rest: &[u8]) -> Form<'_>
    ensures value { form_view result
        ≡ open_form rest.now (after_front (codes " READ" ++ NL ∷ []) rest.now) }
    ensures fits { FormFits (form_view result) }
{
    match after_front(b" READ\x8d", rest) {
        Some(path) if is_path(path) => Form::Formed(Command::OpenRead(path)),
        Some(_) => Form::IllegalPath,
        None => open_write_form(rest),
    }
}

fn write_form(rest: &[u8]) -> Form<'_>
    ensures value { form_view result ≡ write_form (after_front (NL ∷ []) rest.now) }
    ensures fits { FormFits (form_view result) }
{
    match after_front(&[NL], rest) {
        Some(bytes) if bytes.len() <= MAX_CHUNK => Form::Formed(Command::Write(bytes)),
        _ => Form::Malformed,
    }
}

fn paths_form(both: &[u8]) -> Form<'_>
    ensures value { form_view result ≡ paths_form (cut NL both.now) }
    ensures fits { FormFits (form_view result) }
{
    match cut(both, NL) {
        Some((old, new)) if is_path(old) && is_path(new) => {
            Form::Formed(Command::Rename(old, new))
        }
        Some(_) => Form::IllegalPath,
        None => Form::Malformed,
    }
}

fn rename_form(rest: &[u8]) -> Form<'_>
    ensures value { form_view result ≡ rename_form (after_front (NL ∷ []) rest.now) }
    ensures fits { FormFits (form_view result) }
{
    match after_front(&[NL], rest) {
        Some(both) => paths_form(both),
        None => Form::Malformed,
    }
}

fn delete_form(rest: &[u8]) -> Form<'_>
    ensures value { form_view result ≡ delete_form (after_front (NL ∷ []) rest.now) }
    ensures fits { FormFits (form_view result) }
{
    match after_front(&[NL], rest) {
        Some(path) if is_path(path) => Form::Formed(Command::Delete(path)),
        Some(_) => Form::IllegalPath,
        None => Form::Malformed,
    }
}

/// What stands behind a word; `bare` says that the handle is empty.
pub(crate) fn form_of(word: Word, bare: bool, rest: &[u8]) -> Form<'_>
    ensures value { form_view result ≡ form_of word bare rest.now }
    ensures fits { FormFits (form_view result) }
{
    match word {
        Word::Login => login_form(bare, rest),
        Word::Open if !bare => open_form(rest),
        Word::Read if !bare && rest.is_empty() => Form::Formed(Command::Read),
        Word::Write if !bare => write_form(rest),
        Word::Close if !bare && rest.is_empty() => Form::Formed(Command::Close),
        Word::Rename if bare => rename_form(rest),
        Word::Delete if bare => delete_form(rest),
        _ => Form::Malformed,
    }
}
