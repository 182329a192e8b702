//! A store that is read alone.
ghost use Rattle.std.specs.Prelude.{◌≡◌, ◌≤◌, length, true, IfSome, Some};
ghost use Rattle.chaos_packet.specs.Count.{Rose};
ghost use Rattle.chaos_file.specs.declared.store.Cause.TheVariants as cause;
ghost use Rattle.chaos_file.specs.Store.{Gives, Gets, Puts, Removes, Renames};
ghost use Rattle.chaos_file.specs.ReadOnly.{count_both, new_read_only, read_by, with_refused};

use crate::store::{Cause, Got, Removed, Renamed, Store, Stored};
use std::alloc::Global;
use std::marker::Model;

/// A store that is read alone: what would change a file is answered `Failed`, and the store behind
/// isn't asked. A contract sees that store, how many calls were refused, and whether the last call
/// was.
#[derive(Drop)]
pub struct ReadOnly<S> {
    inner: S,
    refused: u64,
    /// Whether the last call was refused.
    is_refusal: bool,
}

impl<S> Model for ReadOnly<S> {
    ghost use Rattle.chaos_file.specs.ReadOnly.{ReadOnlyView};

    ghost Value = { ReadOnlyView S };

    ghost view = { λ s.
        record { inner = s.inner; refused = s.refused; is_refusal = s.is_refusal } };
}

impl<S> ReadOnly<S> {
    /// This store, to be read alone.
    pub fn new(inner: S) -> Self
        // A new store to be read alone has refused nothing.
        ensures { result ≡ new_read_only inner }
    {
        ReadOnly {
            inner,
            refused: 0,
            is_refusal: false,
        }
    }

    fn refuse(&mut self)
        ensures { self.new ≡ with_refused self.old }
    {
        self.refused = self.refused.saturating_add(1);
        self.is_refusal = true;
    }
}

impl<S: Store> Store for ReadOnly<S> {
    ghost contents = { λ s. S.contents s.inner };

    ghost may_give = { λ s. S.may_give s.inner };

    ghost count = { count_both S.count };

    fn get(&mut self, alloc: Global, path: &[u8], limit: usize) -> Got
        // A read is the store's own, and refuses nothing.
        ensures failed { result ≡ Got.Failed →
            Rose (count_both S.count self.old) (count_both S.count self.new) }
        ensures limit { Gives (λ bytes. length bytes ≤ limit) result }
        ensures gives { Gives (S.may_give self.old.inner path.now limit) result }
        ensures files { IfSome (S.contents self.old.inner)
            (Gets path.now limit result (S.contents self.new.inner)) }
        ensures refused { self.new ≡ read_by self.new.inner self.old }
    {
        self.is_refusal = false;
        self.inner.get(alloc, path, limit)
    }

    fn put(&mut self, alloc: Global, path: &[u8], bytes: &[u8]) -> Stored
        // A put is refused and counted, and the store isn't asked.
        ensures failed { result ≡ Stored.Failed →
            Rose (count_both S.count self.old) (count_both S.count self.new) }
        ensures files { IfSome (S.contents self.old.inner)
            (Puts path.now bytes.now result (S.contents self.new.inner)) }
        ensures refused { (result ≡ Stored.Failed) × (self.new ≡ with_refused self.old) }
    {
        self.refuse();
        Stored::Failed
    }

    fn remove(&mut self, alloc: Global, path: &[u8]) -> Removed
        // A removal is refused and counted, and the store isn't asked.
        ensures failed { result ≡ Removed.Failed →
            Rose (count_both S.count self.old) (count_both S.count self.new) }
        ensures files { IfSome (S.contents self.old.inner)
            (Removes path.now result (S.contents self.new.inner)) }
        ensures refused { (result ≡ Removed.Failed) × (self.new ≡ with_refused self.old) }
    {
        self.refuse();
        Removed::Failed
    }

    fn rename(&mut self, alloc: Global, old: &[u8], new: &[u8]) -> Renamed
        // A renaming is refused and counted, and the store isn't asked.
        ensures failed { result ≡ Renamed.Failed →
            Rose (count_both S.count self.old) (count_both S.count self.new) }
        ensures files { IfSome (S.contents self.old.inner)
            (Renames old.now new.now result (S.contents self.new.inner)) }
        ensures refused { (result ≡ Renamed.Failed) × (self.new ≡ with_refused self.old) }
    {
        self.refuse();
        Renamed::Failed
    }

    fn failures(&self) -> u64 {
        self.inner.failures().saturating_add(self.refused)
    }

    fn cause(&self) -> Option<Cause<'_>>
        // The cause of a call that was refused is that the store is only read.
        ensures { self.now.is_refusal ≡ true → result ≡ Some cause.ReadOnly }
    {
        if self.is_refusal {
            Some(Cause::ReadOnly)
        } else {
            self.inner.cause()
        }
    }
}
