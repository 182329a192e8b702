//! Local files, read whole, and their names.
ghost use Rattle.std.specs.Prelude.{◌≡◌, ◌≤◌, ◌<◌, None, length, IfOk, IfSome};
ghost use Rattle.chaos_file.specs.declared.limits.TheConstants.{MAX_FILE};
ghost use Rattle.file_copy.specs.Local.{IsLastName};

use chaos_file::MAX_FILE;
use std::alloc::Global;
use std::io;
use std::io::Read;

/// All bytes that a reader has, or None where they are more than a file of FILE may have: one byte
/// more than that is read at most.
///
/// # Errors
/// Those of the reader, and out of memory.
pub fn read_whole<F: Read>(alloc: Global, from: F) -> io::Result<Option<Vec<u8>>>
where
    F: Drop,
    // What is read is no more than a file of FILE may have.
    ensures fits { IfOk result (λ o. IfSome o (λ v. length v.items ≤ MAX_FILE)) }
    // What is answered is all that the reader had left.
    ensures whole { IfOk result
        (λ o. IfSome o (λ v. IfSome (F.remaining from) (λ input. v.items ≡ input))) }
    // There is too much for a file only where there is.
    ensures much { IfOk result
        (λ o. o ≡ None → IfSome (F.remaining from) (λ input. MAX_FILE < length input)) }
{
    let mut bytes = Vec::new(alloc);
    from.take((MAX_FILE as u64).saturating_add(1))
        .read_to_end(&mut bytes)?;
    if bytes.len() > MAX_FILE {
        return Ok(None);
    }
    Ok(Some(bytes))
}

/// What stands behind a path's last slash, or all of it where there is none. The cost is a look at
/// each byte.
pub fn last_name(path: &str) -> &str
    // It stands at the path's end, behind a slash or behind nothing, and has no slash.
    ensures { IsLastName path.now result.now }
{
    let mut name = path;
    while let Some((_, behind)) = name.split_once('/') {
        name = behind;
    }
    name
}
