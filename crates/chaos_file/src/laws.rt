//! Laws of the language, over its definition alone.
ghost use Rattle.std.specs.Prelude.{◌≡◌, ℕ, true, false, List, ◌++◌, length, Result, Some, Err};
ghost use Rattle.chaos_file.specs.Session.{SessionView, new_session};
ghost use Rattle.chaos_packet.specs.Count.{Rose};
ghost use Rattle.chaos_file.specs.Store.{Files, change};
ghost use Rattle.chaos_file.specs.Command.{CommandView, Good};
ghost use Rattle.chaos_file.specs.Spelling.{spelling_of, is_good};
ghost use Rattle.chaos_file.specs.Grammar.{parse_of};
ghost use Rattle.chaos_file.specs.Answer.{Answer, reply_to};
ghost use Rattle.chaos_file.specs.Step.{file_step};
ghost use Rattle.chaos_file.specs.Apply.{IsApplied, IsStep};
ghost use Rattle.chaos_file.specs.Replies.{memory_change, replies_of, replies_from, files_after, session_after};
ghost use Rattle.chaos_file.specs.Reply.{ReplyView, is_reply, reading_of, reply_text, step_reply};
ghost use Rattle.chaos_file.specs.Want.{is_want, is_no_memory};
ghost use Rattle.chaos_file.specs.declared.error.FileError.{FileError};
ghost use Rattle.chaos_file.specs.declared.error.FileError.TheVariants.{NoMemory};

use crate::store::Store;

/// How commands are spelled and read.
#[tactic(auto, using(crate::proofs::Spelling::parsed_spelled, crate::proofs::Reading::read_spelled, crate::proofs::Reading::read_good))]
pub fn law_spelling()
    // Bytes that spell a command with legal names and parts are read as this command.
    ensures read { (tid handle : List ℕ) (command : CommandView) →
        is_good tid handle command ≡ true →
        parse_of (spelling_of tid handle command) ≡ Good tid handle command }
    // Bytes that are read as a command spell it.
    ensures spelled { (bytes tid handle : List ℕ) (command : CommandView) →
        parse_of bytes ≡ Good tid handle command →
        bytes ≡ spelling_of tid handle command }
    // The names and parts of a command that was read are legal.
    ensures good { (bytes tid handle : List ℕ) (command : CommandView) →
        parse_of bytes ≡ Good tid handle command →
        is_good tid handle command ≡ true }
{}

/// The replies to a list of commands.
#[tactic(auto, using(crate::proofs::Replies::replies_append, crate::proofs::Replies::replies_length))]
pub fn law_replies()
    // Each command of a list has one reply.
    ensures one_each { (m : Files) (commands : List (List ℕ)) →
        length (replies_of m commands) ≡ length commands }
    // The replies to more commands go on where those before them ended, so what comes later changes
    // no reply.
    ensures go_on { (m : Files) (xs ys : List (List ℕ)) → replies_of m (xs ++ ys)
        ≡ replies_of m xs
        ++ replies_from (files_after m new_session xs) (session_after m new_session xs) ys }
{}

/// What an honest store makes of a command.
#[tactic(auto, using(crate::proofs::Replies::honest_step))]
pub fn law_honest<S: Store>()
    // Over every honest store, where its count of failures didn't rise at a command, a reply that
    // isn't out of memory is the definition's, and so are the session and the files.
    ensures { (old new : S) (m : Files) (s t : SessionView) (c reply : List ℕ) →
        S.contents old ≡ Some m → ¬ (Rose (S.count old) (S.count new)) →
        IsApplied (change S.contents S.may_give S.count old new) s t c reply →
        ¬ (reply ≡ reply_to (parse_of c) (Err NoMemory)) →
        IsStep (change S.contents S.may_give S.count old new) (file_step m s c) reply t }
{}

/// What a store in memory, which never fails, makes of a command.
#[tactic(auto, using(crate::proofs::Replies::memory_step))]
pub fn law_memory()
    // Over a store in memory a reply that isn't out of memory is the definition's, and so are the
    // session and the files.
    ensures { (m n : Files) (s t : SessionView) (c reply : List ℕ) →
        IsApplied (memory_change m n) s t c reply →
        ¬ (reply ≡ reply_to (parse_of c) (Err NoMemory)) →
        IsStep (memory_change m n) (file_step m s c) reply t }
{}

/// How replies are spelled and read.
#[tactic(auto, using(crate::proofs::ReadReplies::reply_read, crate::proofs::ReadReplies::reply_spelled, crate::proofs::ReadReplies::reply_legal, crate::proofs::ReadReplies::replies_read))]
pub fn law_read_replies()
    // Bytes that spell a reply are read as this reply.
    ensures read { (r : ReplyView) → is_reply r ≡ true → reading_of (reply_text r) ≡ Some r }
    // Bytes that are read as a reply spell it.
    ensures spelled { (bytes : List ℕ) (r : ReplyView) → reading_of bytes ≡ Some r →
        bytes ≡ reply_text r }
    // The names, chunks and counts of a reply that was read are such as FILE has.
    ensures legal { (bytes : List ℕ) (r : ReplyView) → reading_of bytes ≡ Some r →
        is_reply r ≡ true }
    // The definition's reply to a command is read as the names that it gives back, and the outcome.
    ensures defined { (m : Files) (before : List (List ℕ)) (command : List ℕ) →
        reading_of
        (file_step (files_after m new_session before) (session_after m new_session before)
        command).reply
        ≡ Some (step_reply (files_after m new_session before) (session_after m new_session before)
        command) }
{}

/// Which replies [`is_want`](crate::is_want) tells to be out of memory.
#[tactic(auto, using(crate::proofs::NoMemory::want_told, crate::proofs::NoMemory::none_wanted))]
pub fn law_want()
    // A reply is told as an out-of-memory reply exactly where the command's outcome is out of
    // memory. So no bytes that a READ gives read so.
    ensures told { (command : List ℕ) (outcome : Result Answer FileError) →
        is_want (reply_to (parse_of command) outcome) ≡ is_no_memory outcome }
    // No reply that the definition gives is told so.
    ensures defined { (m : Files) (s : SessionView) (command : List ℕ) →
        is_want (file_step m s command).reply ≡ false }
{}
