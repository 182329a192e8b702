//! Files that a line names by words that are no text.
ghost use Rattle.std.specs.Prelude.{◌≡◌, ◌==◌, IfErr, IfOk, None, OnErr, OnOk, Some, length, not, option_map};
ghost use Rattle.chaosd.specs.Skipped.{files_of, first_elsewhere, first_elsewhere_of, has_work, is_marked, is_text_of, stands_once, unmarked, unmarked_of};
ghost use Rattle.chaosd.specs.declared.words.WordsFault.TheVariants.{NotText};

use crate::words::{Mark, WordsFault};
use chaosd_line::Line;
use file_names::Named;

/// Whether a name is a mark's text.
fn is_text_of(mark: &Mark, name: &str) -> bool
    // The result is true exactly where the name is the mark's text.
    ensures { result ≡ is_text_of mark.now name.now }
{
    name == mark.text.as_str()
}

/// Whether a name is the text of one of the marks.
fn is_marked(marks: &[Mark], name: &str) -> bool
    // The result is true exactly where the name is the text of one of the marks.
    ensures { result ≡ is_marked marks.now name.now }
{
    marks.iter().any(|mark| is_text_of(mark, name))
}

/// Whether a mark is the text of one file's name and of no other.
fn stands_once<F: Named>(files: &[F], mark: &Mark) -> bool
    // The result is true exactly where the mark is the text of one file's name and of no other.
    ensures { result ≡ stands_once F.name files.now mark.now }
{
    files
        .iter()
        .filter(|file| is_text_of(mark, file.name()))
        .count()
        == 1
}

/// The first word that is no text and can't be found among these files. A name that a user gave may
/// be like a mark: then it isn't known which of the two is meant.
fn first_elsewhere<F: Named>(files: &[F], marks: &[Mark]) -> Option<usize>
    // The result is the place of the first mark that isn't the text of exactly one of the names.
    ensures { result ≡ first_elsewhere F.name files.now marks.now }
{
    marks
        .iter()
        .find(|mark| !stands_once(files, mark))
        .map(|mark| mark.place)
}

/// Takes out of these files each whose name is a mark. The result is whether a file is left.
///
/// # Errors
/// The place of the first mark that isn't one of the names. The files then stay as they were.
fn skip<F: Named + Drop>(files: &mut Vec<F>, marks: &[Mark]) -> Result<bool, WordsFault>
    // If it ends well, the files whose names are no mark's are left, in their order.
    ensures names { OnOk result (files.new.items ≡ unmarked F.name marks.now files.old.items) }
    // The result says whether any file is left.
    ensures left { IfOk result (λ is_left. is_left ≡ not (length files.new.items == 0)) }
    // It ends well only where each mark is the text of exactly one of the names.
    ensures known { OnOk result (first_elsewhere F.name files.old.items marks.now ≡ None) }
    // The fault has the place of the first mark that isn't.
    ensures fault { IfErr result
        (λ fault. option_map NotText (first_elsewhere F.name files.old.items marks.now)
        ≡ Some fault) }
    // After a fault the files are as they were.
    ensures unchanged { OnErr result (files.new ≡ files.old) }
{
    if let Some(place) = first_elsewhere(files.as_slice(), marks) {
        return Err(WordsFault::NotText(place));
    }
    files.retain(|file| !is_marked(marks, file.name()));
    Ok(!files.is_empty())
}

/// Leaves out of a line the files that are named by words which are no text. The result is whether
/// the line has something left to do.
///
/// # Errors
/// The place of the first such word that names none of the line's files. The line then stays as it
/// was.
pub(crate) fn skip_marked(line: &mut Line<'_>, marks: &[Mark]) -> Result<bool, WordsFault>
    // If it ends well, the line has the files whose names are no mark's, in their order, and each
    // file that is put with the path that it had.
    ensures names { OnOk result (files_of line.new ≡ unmarked_of marks.now (files_of line.old)) }
    // The result says whether the line has work left.
    ensures left { IfOk result (λ is_left. is_left ≡ has_work line.new) }
    // It ends well only where each mark is the text of exactly one of the line's names.
    ensures known { OnOk result (first_elsewhere_of (files_of line.old) marks.now ≡ None) }
    // The fault has the place of the first mark that isn't.
    ensures fault { IfErr result
        (λ fault. option_map NotText (first_elsewhere_of (files_of line.old) marks.now)
        ≡ Some fault) }
    // After a fault the line's files are as they were.
    ensures unchanged { OnErr result (files_of line.new ≡ files_of line.old) }
{
    match line {
        Line::Get(get) => skip(&mut get.paths, marks),
        Line::Put(put) => skip(&mut put.files, marks),
        Line::Delete(delete) => skip(&mut delete.paths, marks),
        _ => match marks.first() {
            None => Ok(true),
            Some(first) => Err(WordsFault::NotText(first.place)),
        },
    }
}
