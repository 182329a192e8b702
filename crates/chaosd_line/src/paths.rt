//! The paths that local files go under.
ghost use Rattle.std.specs.Prelude.{◌≡◌, ◌≤◌, ◌+◌, ◌++◌, None, Some, false, length, map, option_map};
ghost use Rattle.std.specs.List.{list_all, list_any};
ghost use Rattle.chaos_file.specs.declared.limits.TheConstants.{MAX_PATH};
ghost use Rattle.chaosd_line.specs.Files.{are_apart, file_view, first_byte, has_same_path, is_file, is_same_path, name_for, path_byte, path_for, put_files, renamed};
ghost use Rattle.chaosd_line.specs.Lines.{Answers};

use crate::bad_value::{BadValue, Clash, LOCALS_FORM, ONE_LOCAL, PATH_FORM};
use crate::files::last_name;
use crate::line_problem::LineProblem;
use chaos_file::{FilePath, MAX_PATH, is_path, is_path_byte};
use file_names::{PutFile, STREAM};
use std::alloc::Global;

/// A byte of a path, in place of this one.
fn path_byte(b: u8) -> u8
    ensures { result ≡ path_byte b }
{
    if is_path_byte(b) { b } else { b'_' }
}

/// Likewise the first one, which is no dot.
fn first_byte(b: u8) -> u8
    ensures { result ≡ first_byte b }
{
    if b == b'.' { b'_' } else { path_byte(b) }
}

/// Adds bytes of a path in place of these.
fn add_path_bytes(path: &mut FilePath, bytes: &[u8])
    requires { length path.old.items + length bytes.now ≤ MAX_PATH }
    ensures { path.new.items ≡ path.old.items ++ map path_byte bytes.now }
{
    for b in bytes {
        let _fits = path.try_push(path_byte(*b));
    }
}

/// A name, renamed byte by byte.
fn renamed(name: &[u8]) -> FilePath
    requires { length name.now ≤ MAX_PATH }
    ensures { result.items ≡ renamed name.now }
{
    let mut path = FilePath::new();
    if let [first, rest @ ..] = name {
        let _fits = path.try_push(first_byte(*first));
        add_path_bytes(&mut path, rest);
    }
    path
}

/// A name, as it is.
fn kept(name: &[u8]) -> FilePath
    requires { length name.now ≤ MAX_PATH }
    ensures { result.items ≡ name.now }
{
    let mut path = FilePath::new();
    let _fits = path.try_extend_from_slice(name);
    path
}

/// A name, renamed where that is asked for.
fn name_for(name: &[u8], is_renaming: bool) -> FilePath
    requires { length name.now ≤ MAX_PATH }
    ensures { result.items ≡ name_for is_renaming name.now }
{
    if is_renaming {
        renamed(name)
    } else {
        kept(name)
    }
}

/// The path that `put` puts a local file under.
///
/// A name of more than 64 bytes has no path, and neither has an empty name. The cost is a walk over
/// the text.
pub(crate) fn path_for(local: &str, is_renaming: bool) -> Option<FilePath>
    // A local file goes under what stands behind the last slash of its name, if that is a path of
    // FILE and not `-`, and otherwise under no path. If names are renamed, an underscore first
    // takes the place of each byte that no path has, and of a leading dot.
    ensures { option_map (λ p. p.items) result ≡ path_for is_renaming local.now }
{
    let name = last_name(local.as_bytes());
    if name.len() > MAX_PATH || name == STREAM.as_bytes() {
        return None;
    }
    let path = name_for(name, is_renaming);
    if is_path(path.as_slice()) {
        Some(path)
    } else {
        None
    }
}

/// Whether there are two paths, and they are one.
fn is_same_path(one: &Option<FilePath>, other: &Option<FilePath>) -> bool
    ensures { result
        ≡ is_same_path (option_map (λ p. p.items) one.now) (option_map (λ p. p.items) other.now) }
{
    match (one, other) {
        (Some(one), Some(other)) => one.as_slice() == other.as_slice(),
        _ => false,
    }
}

/// Whether one of these files goes under the path.
fn is_taken(path: &Option<FilePath>, files: &[PutFile<'_>]) -> bool
    ensures { result ≡ list_any
        (λ f. is_same_path (option_map (λ p. p.items) f.path) (option_map (λ p. p.items) path.now))
        files.now }
{
    files.iter().any(|file| is_same_path(&file.path, path))
}

/// Whether no two files go under one path. The cost is that of a walk over the later files for
/// each.
fn are_apart(files: &[PutFile<'_>]) -> bool
    ensures { result ≡ are_apart has_same_path (map file_view files.now) }
{
    for i in 0..files.len() {
        if is_taken(&files[i].path, &files[i + 1..]) {
            return false;
        }
    }
    true
}

/// Whether no text is standard input.
fn all_files(texts: &[&str]) -> bool
    ensures { result ≡ list_all (λ t. is_file t.now) texts.now }
{
    texts
        .iter()
        .all(|text| text.as_bytes() != STREAM.as_bytes())
}

/// The first file that goes under the path of one before it, beside that one.
fn clash_of<'a>(files: &[PutFile<'a>]) -> Option<Clash<'a>> {
    for j in 0..files.len() {
        for i in 0..j {
            if is_same_path(&files[i].path, &files[j].path) {
                return Some(Clash {
                    first: files[i].local,
                    second: files[j].local,
                });
            }
        }
    }
    None
}

/// What is wrong with local files of which one is standard input, or two go under one path.
fn bad_files<'a>(texts: &[&'a str], files: &[PutFile<'a>]) -> LineProblem<'a> {
    if all_files(texts) {
        if let Some(files) = clash_of(files) {
            return LineProblem::Clash(files);
        }
    }
    LineProblem::Bad(BadValue::new(STREAM, "LOCAL", LOCALS_FORM))
}

/// The local files, each with the path of its own name. None of them is standard input, and no two
/// go under one path.
pub(crate) fn own_files<'a>(
    alloc: Global,
    texts: &[&'a str],
    is_renaming: bool,
) -> Result<Vec<PutFile<'a>>, LineProblem<'a>>
    ensures { Answers (λ v. map file_view v.items)
        (put_files is_renaming None (map (λ t. t.now) texts.now)) result }
{
    let mut files = Vec::new(alloc);
    for local in texts {
        let file = PutFile {
            local: *local,
            path: path_for(local, is_renaming),
        };
        let Ok(()) = files.push(file) else {
            return Err(LineProblem::NoMemory);
        };
    }
    if all_files(texts) && are_apart(files.as_slice()) {
        Ok(files)
    } else {
        Err(bad_files(texts, files.as_slice()))
    }
}

/// The one local file, with the path that is given.
pub(crate) fn file_under<'a>(
    alloc: Global,
    texts: &[&'a str],
    path: &'a str,
) -> Result<Vec<PutFile<'a>>, LineProblem<'a>>
    ensures { Answers (λ v. map file_view v.items)
        (put_files false (Some path.entry.now) (map (λ t. t.now) texts.now)) result }
{
    if !is_path(path.as_bytes()) {
        return Err(LineProblem::Bad(BadValue::new(path, "as", PATH_FORM)));
    }
    let [local] = texts else {
        return Err(LineProblem::Bad(BadValue::misfit(path, "as", ONE_LOCAL)));
    };
    let mut files = Vec::new(alloc);
    let file = PutFile {
        local: *local,
        path: path_for(path, false),
    };
    match files.push(file) {
        Ok(()) => Ok(files),
        Err(_) => Err(LineProblem::NoMemory),
    }
}
