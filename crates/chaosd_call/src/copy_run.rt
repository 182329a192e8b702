//! The files of a `get` or a `put`, and how far the run over them has come.
ghost use Rattle.std.specs.Prelude.{◌≡◌};
ghost use Rattle.chaosd_call.specs.CopyRun.{bytes_behind, sum_of};

use chaos_file::MAX_FILE;
use file_names::{PutFile, STREAM};
use std::cell::Cell;
use std::fs;
use std::rt::Files;

/// The files of a run, and how far that has come. Whoever shows how far a file has come and whoever
/// reports what came of it share this.
#[derive(Drop)]
pub struct CopyRun {
    /// How many files there are.
    count: usize,
    /// How many bytes each has, where that is known of all.
    sizes: Option<Vec<usize>>,
    /// How many files were reported.
    reported: Cell<usize>,
    /// How many milliseconds the last copy took.
    millis: Cell<u64>,
}

/// The sum of these counts, or the greatest count where the sum is more.
fn sum_of(counts: &[usize]) -> usize
    // The result is the sum, which stops at the greatest count.
    ensures { result ≡ sum_of counts.now }
{
    let mut sum: usize = 0;
    for count in counts {
        sum = sum.saturating_add(*count);
    }
    sum
}

/// How many bytes the files behind this place have.
fn bytes_behind(sizes: &[usize], place: usize) -> usize
    // The result is the sum of the sizes behind the place.
    ensures { result ≡ bytes_behind sizes.now place }
{
    if place < sizes.len() {
        sum_of(&sizes[place + 1..])
    } else {
        0
    }
}

/// How many bytes are put of what has this local name: none of what is no file, or is too long.
/// Those of standard input, of a pipe and of a device aren't known.
fn size_of<R: Files>(rt: &R, local: &str) -> Option<usize> {
    if local == STREAM {
        return None;
    }
    match fs::metadata(rt, local) {
        Ok(info) if info.is_file() => {
            let size = usize::try_from(info.len()).unwrap_or(usize::MAX);
            Some(if size <= MAX_FILE { size } else { 0 })
        }
        Ok(info) if info.is_dir() => Some(0),
        Ok(_) => None,
        Err(_) => Some(0),
    }
}

/// How many bytes are put of each of these files, where that is known of all.
fn sizes_of<R: AllocGlobal + Files>(rt: &R, files: &[PutFile<'_>]) -> Option<Vec<usize>> {
    let mut sizes = Vec::new(rt.alloc());
    for file in files {
        let size = match file.path {
            Some(_) => size_of(rt, file.local)?,
            None => 0,
        };
        sizes.push(size).ok()?;
    }
    Some(sizes)
}

impl CopyRun {
    /// A run over so many files, whose sizes aren't known.
    pub fn of_count(count: usize) -> Self {
        CopyRun {
            count,
            sizes: None,
            reported: Cell::new(0),
            millis: Cell::new(0),
        }
    }

    /// A run over these local files, which are looked at where the run is shown.
    pub fn of_files<R: AllocGlobal + Files>(rt: &R, files: &[PutFile<'_>], is_shown: bool) -> Self {
        CopyRun {
            sizes: if is_shown { sizes_of(rt, files) } else { None },
            ..CopyRun::of_count(files.len())
        }
    }

    /// How many files there are.
    pub fn count(&self) -> usize {
        self.count
    }

    /// How many files were reported.
    pub fn reported(&self) -> usize {
        self.reported.get()
    }

    /// The place of the file that is copied now, from 1 on.
    pub fn place(&self) -> usize {
        self.reported.get().saturating_add(1)
    }

    /// The bytes of the files behind that, where they are known.
    pub fn behind(&self) -> Option<usize> {
        match &self.sizes {
            Some(sizes) => Some(bytes_behind(sizes.as_slice(), self.reported.get())),
            None => None,
        }
    }

    /// The copy of a file took so many milliseconds.
    pub fn took(&self, millis: u64) {
        self.millis.set(millis);
    }

    /// How many milliseconds the last copy took.
    pub fn millis(&self) -> u64 {
        self.millis.get()
    }

    /// What came of one more file was reported.
    pub fn report(&self) {
        self.reported.set(self.place());
    }
}
