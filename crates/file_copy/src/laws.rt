//! Laws of whole files, over the definition of FILE alone.
ghost use Rattle.std.specs.Prelude.{◌≡◌, ◌≤◌, ◌+◌, ◌∷◌, [], ℕ, true, List, Some, length};
ghost use Rattle.std.specs.List.{flat_map};
ghost use Rattle.std.specs.FinMap as map;
ghost use Rattle.chaos_file.specs.declared.limits.TheConstants.{MAX_FILE, MAX_NAME};
ghost use Rattle.chaos_file.specs.Names.{is_name, is_path};
ghost use Rattle.chaos_file.specs.Session.{new_session};
ghost use Rattle.chaos_file.specs.Replies.{files_after, replies_from};
ghost use Rattle.chaos_file.specs.Store.{Files};
ghost use Rattle.file_copy.specs.declared.limits.TheConstants.{MAX_FIRST};
ghost use Rattle.file_copy.specs.Row.{file_handle};
ghost use Rattle.file_copy.specs.Ends.{tids_from, login_command, login_reply};
ghost use Rattle.file_copy.specs.Copy.{Tids, CanCopy, Does, upto, chunk, chunk_count, logged_in, put_front, put_commands, put_replies, get_commands, get_replies};

/// A login, by the definition of FILE.
pub fn law_login()
    // A new session's LOGIN gives the user's name, and changes no file.
    ensures { (m : Files) (name : List ℕ) → is_name 1 MAX_NAME name ≡ true →
        Does m new_session (login_command name ∷ []) m (logged_in name) (login_reply name ∷ []) }
{}

/// A put, by the definition of FILE, in a session that has logged in and has no file open.
pub fn law_put()
    // The commands that put a file leave exactly that file at its path, whatever was there, every
    // other file as it was, and no handle open. They are answered by OPEN 0, the bytes so far, and
    // the whole length.
    ensures { (m : Files) (tid : Tids) (name handle path bytes : List ℕ) →
        CanCopy tid (2 + chunk_count (length bytes)) handle path bytes →
        Does m (logged_in name) (put_commands tid handle path bytes) (map.insert m path bytes)
        (logged_in name) (put_replies tid handle bytes) }
{}

/// A get, by the definition of FILE, in a session that has logged in and has no file open.
pub fn law_get()
    // The commands that get a file are answered by its length, its bytes in pieces, EOF, and its
    // length again, and change nothing.
    ensures { (m : Files) (tid : Tids) (name handle path bytes : List ℕ) →
        CanCopy tid (3 + chunk_count (length bytes)) handle path bytes →
        map.get m path ≡ Some bytes →
        Does m (logged_in name) (get_commands tid handle path (length bytes)) m (logged_in name)
        (get_replies tid handle bytes) }
{}

/// A file in pieces.
#[tactic(auto, using(crate::proofs::Whole::pieces_joined))]
pub fn law_pieces()
    // The pieces of a file, joined, are the file.
    ensures { (bytes : List ℕ) →
        flat_map (λ p. p) (upto (chunk bytes) (chunk_count (length bytes))) ≡ bytes }
{}

/// A put that is broken off, by the definition of FILE.
pub fn law_put_broken()
    // Before its CLOSE a put changes no file, wherever it is broken off.
    ensures { (m : Files) (tid : Tids) (name handle path bytes : List ℕ) (k : ℕ) →
        CanCopy tid (2 + chunk_count (length bytes)) handle path bytes →
        k ≤ chunk_count (length bytes) →
        files_after m (logged_in name) (put_front tid handle path bytes k) ≡ m }
{}

/// What the replies to a get show, by the definition of FILE.
pub fn law_got()
    // Where the commands that get a file were answered as a file of these bytes is, the server's
    // file at the path has these bytes. The replies alone show it.
    ensures { (m : Files) (tid : Tids) (name handle path bytes : List ℕ) →
        CanCopy tid (3 + chunk_count (length bytes)) handle path bytes →
        replies_from m (logged_in name) (get_commands tid handle path (length bytes))
        ≡ get_replies tid handle bytes →
        map.get m path ≡ Some bytes }
{}

/// The engines' own names: commands are numbered from a `first` of at most `MAX_FIRST` on.
pub fn law_tids()
    // The numbers by which the engines name their commands are names such as the laws ask for.
    ensures { (first : ℕ) (path bytes : List ℕ) → first ≤ MAX_FIRST → is_path path ≡ true →
        length bytes ≤ MAX_FILE →
        CanCopy (tids_from first) (3 + chunk_count (length bytes)) file_handle path bytes }
{}
