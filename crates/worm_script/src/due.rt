ghost use Rattle.std.specs.Prelude.{◌≡◌, ◌<◌, ◌==◌, ◌+◌, length, slice_index, slice_index_or};
ghost use Rattle.worm_script.specs.Script.{AreGaps, HaveWords, IsNext, sources_of};
ghost use Rattle.worm_script.specs.declared.entry.Entry.{Entry as OfEntry};

use crate::entry::{Act, Entry};
use std::marker::Model;

/// The entries of a turn, in order, each with the way to the next one that asks the same source.
#[derive(Drop)]
pub struct Due<'a> {
    entries: &'a [Entry],
    /// How many places after each of them the next one of its source stands: 0, or past them all, where none does.
    gaps: &'a [usize],
}

impl<'a> Model for Due<'a> {
    ghost use Rattle.std.specs.Prelude.{List};
    ghost use Rattle.worm_script.specs.Script.{AreGaps, HaveWords, sources_of};
    ghost use Rattle.worm_script.specs.declared.entry.Entry.{Entry};

    ghost Value = { List Entry };

    ghost view = { λ d. d.entries.now };

    ghost invariant = { λ d. AreGaps (sources_of d.entries.now) d.gaps.now × HaveWords d.entries.now };
}

impl<'a> Due<'a> {
    pub(crate) fn new(entries: &'a [Entry], gaps: &'a [usize]) -> Due<'a>
        requires gaps { AreGaps (sources_of entries.now) gaps.now }
        requires words { HaveWords entries.now }
        ensures { result ≡ entries.now }
    {
        Due { entries, gaps }
    }

    /// How many there are.
    pub fn len(&self) -> usize
        ensures { result ≡ length self.now }
    {
        self.entries.len()
    }

    /// Whether there is none.
    pub fn is_empty(&self) -> bool
        ensures { result ≡ (length self.now == 0) }
    {
        self.entries.is_empty()
    }

    /// What the entry at this place asks.
    pub fn act(&self, i: usize) -> &Act
        requires { i < length self.now }
        ensures { (d : OfEntry) → (slice_index_or self.now i d).act ≡ result.now }
    {
        let entries = self.entries;
        let entry = &entries[i];
        &entry.act
    }

    /// The node whose source the entry at this place asks.
    pub fn source(&self, i: usize) -> u8
        requires { i < length self.now }
        ensures { result ≡ slice_index (sources_of self.now) i }
    {
        self.act(i).lane().src
    }

    /// The place of the first entry that asks this node's source.
    pub fn first_of(&self, node: u8) -> Option<usize>
        ensures { IsNext node self.now 0 result }
    {
        for i in 0..self.entries.len() {
            if self.source(i) == node {
                return Some(i);
            }
        }
        None
    }

    /// The place of the next entry that asks the source that the one at this place asks.
    pub fn next_of(&self, i: usize) -> Option<usize>
        requires { i < length self.now }
        ensures { IsNext (slice_index (sources_of self.now) i) self.now (i + 1) result }
    {
        let gaps = self.gaps;
        let gap = gaps[i];
        // So it cannot overflow, whatever the gap.
        if gap != 0 && gap < gaps.len() - i {
            Some(i + gap)
        } else {
            None
        }
    }

    /// What holds of every packet, for contracts: it has words, and not too many.
    pub fn recall(&self)
        ensures { HaveWords self.now }
    {
        let _entries = &self.entries;
    }
}
