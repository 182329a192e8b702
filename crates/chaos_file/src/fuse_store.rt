//! A store that fails once.
ghost use Rattle.std.specs.Prelude.{◌≡◌, ◌≢◌, ◌≤◌, ◌==◌, length, IfSome, if◌then◌else◌};
ghost use Rattle.chaos_packet.specs.Count.{Rose};
ghost use Rattle.chaos_file.specs.Store.{Gives, Gets, Puts, Removes, Renames};
ghost use Rattle.chaos_file.specs.Fuse.{new_fuse, count_with, after_blow, after_pass};

use crate::store::{Cause, Got, Removed, Renamed, Store, Stored};
use std::alloc::Global;
use std::marker::Model;

/// A store behind a fuse: the call with a given number answers Failed, is counted as a failure and
/// doesn't reach the store, and every other call is the store's. It shows what a session says where
/// its store fails at one place.
///
/// All calls but `failures` are counted, from 1 on and up to the one that fails. The files are
/// those of the store behind the fuse, so that a fuse over an honest store is honest. A contract
/// sees that store, how many calls are left up to the one that fails, and how many failed by the
/// fuse. The fuse takes no memory.
#[derive(Drop)]
pub struct FuseStore<S> {
    inner: S,
    /// The calls up to and with the one that fails; 0 where none does any more.
    calls_left: u64,
    /// The calls that failed by the fuse.
    own_failures: u64,
}

impl<S> Model for FuseStore<S> {
    ghost use Rattle.chaos_file.specs.Fuse.{FuseView};

    ghost Value = { FuseView S };

    ghost view = { λ fuse. record
        { inner = fuse.inner; calls_left = fuse.calls_left; own_failures = fuse.own_failures } };
}

impl<S> FuseStore<S> {
    /// A fuse over this store, whose call number `k` fails; none where that is 0.
    pub fn new(inner: S, k: u64) -> Self
        // The fuse fails at the call that it was given, and no call has failed.
        ensures { result ≡ new_fuse inner k }
    {
        FuseStore {
            inner,
            calls_left: k,
            own_failures: 0,
        }
    }

    /// Counts a call, and says whether it is the one that fails.
    fn blows(&mut self) -> bool
        ensures told { result ≡ (self.old.calls_left == 1) }
        ensures fuse { self.new
            ≡ (if result then after_blow self.old else after_pass self.old.inner self.old) }
    {
        let blows = self.calls_left == 1;
        self.calls_left = self.calls_left.saturating_sub(1);
        if blows {
            self.own_failures = self.own_failures.saturating_add(1);
        }
        blows
    }
}

// Of each call: `blown`, the one that fails doesn't reach the store, and is counted; `passed`,
// every other is the store's, and fails only where the store's own count rose. What a call does to
// the files, `files` says of both.
impl<S: Store> Store for FuseStore<S> {
    ghost contents = { λ fuse. S.contents fuse.inner };

    ghost may_give = { λ fuse. S.may_give fuse.inner };

    ghost count = { count_with S.count };

    fn get(&mut self, alloc: Global, path: &[u8], limit: usize) -> Got
        // It fails only where the store's count or the fuse's rose.
        ensures failed { result ≡ Got.Failed →
            Rose (count_with S.count self.old) (count_with S.count self.new) }
        // It gives no more bytes than it is asked for.
        ensures limit { Gives (λ bytes. length bytes ≤ limit) result }
        // It gives bytes such as the store may give.
        ensures gives { Gives (S.may_give self.old.inner path.now limit) result }
        // What becomes of the files is what the store makes of them, so a fuse over an honest store
        // is honest.
        ensures files { IfSome (S.contents self.old.inner)
            (Gets path.now limit result (S.contents self.new.inner)) }
        // The call that the fuse is at answers Failed, is counted, and reaches no store.
        ensures blown { self.old.calls_left ≡ 1 →
            (result ≡ Got.Failed) × (self.new ≡ after_blow self.old) }
        // Every other call is the store's, and is counted up to the one that fails.
        ensures passed { self.old.calls_left ≢ 1 → self.new ≡ after_pass self.new.inner self.old }
        // It fails only where the store's own count rose.
        ensures passed_failed { self.old.calls_left ≢ 1 → result ≡ Got.Failed →
            Rose (S.count self.old.inner) (S.count self.new.inner) }
    {
        if self.blows() {
            return Got::Failed;
        }
        self.inner.get(alloc, path, limit)
    }

    fn put(&mut self, alloc: Global, path: &[u8], bytes: &[u8]) -> Stored
        // It fails only where the store's count or the fuse's rose.
        ensures failed { result ≡ Stored.Failed →
            Rose (count_with S.count self.old) (count_with S.count self.new) }
        // What becomes of the files is what the store makes of them, so a fuse over an honest store
        // is honest.
        ensures files { IfSome (S.contents self.old.inner)
            (Puts path.now bytes.now result (S.contents self.new.inner)) }
        // The call that the fuse is at answers Failed, is counted, and reaches no store.
        ensures blown { self.old.calls_left ≡ 1 →
            (result ≡ Stored.Failed) × (self.new ≡ after_blow self.old) }
        // Every other call is the store's, and is counted up to the one that fails.
        ensures passed { self.old.calls_left ≢ 1 → self.new ≡ after_pass self.new.inner self.old }
        // It fails only where the store's own count rose.
        ensures passed_failed { self.old.calls_left ≢ 1 → result ≡ Stored.Failed →
            Rose (S.count self.old.inner) (S.count self.new.inner) }
    {
        if self.blows() {
            return Stored::Failed;
        }
        self.inner.put(alloc, path, bytes)
    }

    fn remove(&mut self, alloc: Global, path: &[u8]) -> Removed
        // It fails only where the store's count or the fuse's rose.
        ensures failed { result ≡ Removed.Failed →
            Rose (count_with S.count self.old) (count_with S.count self.new) }
        // What becomes of the files is what the store makes of them, so a fuse over an honest store
        // is honest.
        ensures files { IfSome (S.contents self.old.inner)
            (Removes path.now result (S.contents self.new.inner)) }
        // The call that the fuse is at answers Failed, is counted, and reaches no store.
        ensures blown { self.old.calls_left ≡ 1 →
            (result ≡ Removed.Failed) × (self.new ≡ after_blow self.old) }
        // Every other call is the store's, and is counted up to the one that fails.
        ensures passed { self.old.calls_left ≢ 1 → self.new ≡ after_pass self.new.inner self.old }
        // It fails only where the store's own count rose.
        ensures passed_failed { self.old.calls_left ≢ 1 → result ≡ Removed.Failed →
            Rose (S.count self.old.inner) (S.count self.new.inner) }
    {
        if self.blows() {
            return Removed::Failed;
        }
        self.inner.remove(alloc, path)
    }

    fn rename(&mut self, alloc: Global, old: &[u8], new: &[u8]) -> Renamed
        // It fails only where the store's count or the fuse's rose.
        ensures failed { result ≡ Renamed.Failed →
            Rose (count_with S.count self.old) (count_with S.count self.new) }
        // What becomes of the files is what the store makes of them, so a fuse over an honest store
        // is honest.
        ensures files { IfSome (S.contents self.old.inner)
            (Renames old.now new.now result (S.contents self.new.inner)) }
        // The call that the fuse is at answers Failed, is counted, and reaches no store.
        ensures blown { self.old.calls_left ≡ 1 →
            (result ≡ Renamed.Failed) × (self.new ≡ after_blow self.old) }
        // Every other call is the store's, and is counted up to the one that fails.
        ensures passed { self.old.calls_left ≢ 1 → self.new ≡ after_pass self.new.inner self.old }
        // It fails only where the store's own count rose.
        ensures passed_failed { self.old.calls_left ≢ 1 → result ≡ Renamed.Failed →
            Rose (S.count self.old.inner) (S.count self.new.inner) }
    {
        if self.blows() {
            return Renamed::Failed;
        }
        self.inner.rename(alloc, old, new)
    }

    fn failures(&self) -> u64 {
        self.inner.failures().saturating_add(self.own_failures)
    }

    /// The cause is the inner store's. A call that failed by the fuse has none of its own.
    fn cause(&self) -> Option<Cause<'_>> {
        self.inner.cause()
    }
}
