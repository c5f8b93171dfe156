//! A watcher with what it left.
ghost use Rattle.std.specs.Prelude.{◌≡◌, ◌+◌, ◌<◌, ◌≤◌, ℕ, List, [], length, false, OnOk};
ghost use Rattle.ts_tap.specs.Taps.{HasRoom, watching_of};
ghost use Rattle.ts_tap.specs.Watching.{CountsLeft, CountsMore, KeepsLeft, ShowsOn, new_watching};

use crate::room::{append, remove_front};
use crate::watcher::Watcher;
use std::alloc::Global;
use ts_link::NoMemory;

/// How many bytes wait at most for a watcher that left them.
pub const MOST_UNREAD: usize = 65536;

/// A watcher, and what it left of the bytes that it was offered.
#[derive(Drop)]
pub(crate) struct Watch<W> {
    pub watcher: W,
    /// What waits to be offered again.
    pub waits: Vec<u8>,
    /// Whether more would have waited than may.
    pub lost: bool,
}

impl<W: Watcher> Watch<W> {
    /// A watcher that was offered nothing.
    pub fn make(alloc: Global, watcher: W) -> Watch<W>
        ensures { watching_of result ≡ new_watching watcher }
    {
        Watch {
            watcher,
            waits: Vec::new(alloc),
            lost: false,
        }
    }

    /// Makes room for what may wait once so many bytes more were offered.
    pub fn make_room(&mut self, more: usize) -> Result<(), NoMemory>
        ensures same { watching_of self.new ≡ watching_of self.old }
        ensures room { OnOk result (HasRoom more self.new) }
    {
        let most = MOST_UNREAD.saturating_sub(self.waits.len());
        self.waits.reserve(more.min(most))?;
        Ok(())
    }

    /// Offers what waits.
    pub fn offer_waits(&mut self)
        ensures shows { ShowsOn W.took (watching_of self.old) [] (watching_of self.new) }
        ensures lost { self.new.lost ≡ self.old.lost }
        ensures counts { CountsLeft W.lefts (watching_of self.old) (watching_of self.new) }
        ensures goes { W.goes self.old.watcher self.new.watcher }
        ensures room { (more : ℕ) → HasRoom more self.old → HasRoom more self.new }
    {
        if self.waits.is_empty() {
            return;
        }
        let taken = self.watcher.offer(&self.waits);
        remove_front(&mut self.waits, taken);
    }

    // Has these bytes wait behind those that do. Where that would be too many, all of them are lost.
    fn keep(&mut self, left: &[u8])
        requires lost { self.old.lost ≡ false }
        requires room { HasRoom (length left.now) self.old }
        ensures keeps { KeepsLeft (watching_of self.old) left.now (watching_of self.new) }
        ensures room { (more : ℕ) → HasRoom (length left.now + more) self.old → HasRoom more self.new }
    {
        if self.waits.len().saturating_add(left.len()) > MOST_UNREAD {
            self.lost = true;
            self.waits.clear();
        } else {
            append(&mut self.waits, left);
        }
    }

    /// Offers bytes, for which there is room, where none waits before them; else they wait too. A watcher of
    /// which bytes were lost is offered nothing more.
    pub fn offer(&mut self, bytes: &[u8])
        requires { HasRoom (length bytes.now) self.old }
        ensures shows { ShowsOn W.took (watching_of self.old) bytes.now (watching_of self.new) }
        ensures counts { CountsMore W.lefts (watching_of self.old) (watching_of self.new) }
        ensures goes { W.goes self.old.watcher self.new.watcher }
        ensures room { (more : ℕ) → HasRoom (length bytes.now + more) self.old → HasRoom more self.new }
    {
        if self.lost || bytes.is_empty() {
            return;
        }
        if !self.waits.is_empty() {
            return self.keep(bytes);
        }
        let taken = self.watcher.offer(bytes);
        let (_, left) = bytes.split_at(taken);
        self.keep(left);
    }
}
