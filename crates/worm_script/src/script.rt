ghost use Rattle.std.specs.Prelude.{◌≡◌, ◌<◌, ◌≤◌, ◌-◌, ◌↔◌, ◌++◌, ◌∷◌, [], IsTrue, OnOk, OnErr, length};
ghost use Rattle.std.specs.Prelude.{slice_range, slice_set};
ghost use Rattle.worm_script.specs.Script.{AreInOrder, due, last_turn};

use crate::due::Due;
use crate::entry::Entry;
use std::alloc::Global;
use std::marker::Model;

/// Why an entry was not added.
#[derive(Clone, Copy, Debug, PartialEq, Eq)]
pub enum ScriptFault {
    /// Its turn is below that of the entry before.
    TurnFalls,
    /// There was no memory for it.
    NoMemory,
}

/// Entries in the order of the text, whose turns never fall; turn by turn each source is asked its own in this order.
#[derive(Debug, Drop)]
pub struct Script {
    entries: Vec<Entry>,
    /// How many places after each entry the next one stands that asks the same source: 0 where none does.
    gaps: Vec<usize>,
    /// By node, how many entries there are up to the last one that asks its source: 0 where none does.
    lasts: [usize; 256],
}

impl Model for Script {
    ghost use Rattle.std.specs.Prelude.{List};
    ghost use Rattle.worm_script.specs.Script.{IsScript};
    ghost use Rattle.worm_script.specs.declared.entry.Entry.{Entry};

    ghost Value = { List Entry };

    ghost view = { λ s. s.entries.items };

    ghost invariant = { λ s. IsScript s.entries.items s.gaps.items s.lasts };
}

fn places(entries: &[Entry], turn: u64) -> (usize, usize)
    requires { AreInOrder entries.now }
    ensures rise { result.0 ≤ result.1 }
    ensures within { result.1 ≤ length entries.now }
    ensures part { slice_range entries.now result.0 result.1 ≡ due turn entries.now }
{
    let first = entries.partition_point(|entry| u64::from(entry.turn) < turn);
    let next = entries.partition_point(|entry| u64::from(entry.turn) <= turn);
    (first, next)
}

fn lead_to_end(gaps: &mut Vec<usize>, last: usize)
    requires { last ≤ length gaps.old.items }
    ensures none { last ≡ 0 → gaps.new.items ≡ gaps.old.items }
    ensures some { 0 < last → gaps.new.items ≡ slice_set gaps.old.items (last - 1) (length gaps.old.items - last) }
{
    if last > 0 {
        let count = gaps.len();
        gaps[last - 1] = count - last;
    }
}

impl Script {
    /// A script with no entry.
    pub fn empty(alloc: Global) -> Script
        ensures { result ≡ [] }
    {
        Script {
            entries: Vec::new(alloc),
            gaps: Vec::new(alloc),
            lasts: [0; 256],
        }
    }

    fn last_turn(&self) -> u32
        ensures { result ≡ last_turn self.now }
    {
        match self.entries.last() {
            None => 0,
            Some(entry) => entry.turn,
        }
    }

    /// Adds an entry at the end. `TurnFalls` where its turn is below the last one's, `NoMemory` where there is none.
    pub fn push(&mut self, entry: Entry) -> Result<(), ScriptFault>
        ensures ok { OnOk result (self.new ≡ self.old ++ entry ∷ []) }
        ensures falls { (result ≡ Err ScriptFault.TurnFalls) ↔ (entry.turn < last_turn self.old) }
        ensures err { OnErr result (self.new ≡ self.old) }
    {
        if entry.turn < self.last_turn() {
            return Err(ScriptFault::TurnFalls);
        }
        if self.gaps.reserve(1).is_err() {
            return Err(ScriptFault::NoMemory);
        }
        entry.act.recall();
        let source = usize::from(entry.act.lane().src);
        if self.entries.push(entry).is_err() {
            return Err(ScriptFault::NoMemory);
        }
        let _ = self.gaps.push(0);
        lead_to_end(&mut self.gaps, self.lasts[source]);
        self.lasts[source] = self.entries.len();
        Ok(())
    }

    /// The entries, in order.
    pub fn entries(&self) -> &[Entry]
        ensures { result.now ≡ self.now }
    {
        self.entries.as_slice()
    }

    /// How many entries there are.
    pub fn len(&self) -> usize
        ensures { result ≡ length self.now }
    {
        self.entries.len()
    }

    /// What holds of the entries, for contracts: their turns never fall.
    pub fn recall(&self)
        ensures { AreInOrder self.now }
    {
        let _entries = &self.entries;
    }

    fn is_over(&self, turn: u64) -> bool
        ensures { IsTrue result → due turn self.now ≡ [] }
    {
        self.entries.is_empty() || u64::from(self.last_turn()) < turn
    }

    fn between(&self, first: usize, next: usize) -> Due<'_>
        requires rise { first ≤ next }
        requires within { next ≤ length self.now }
        ensures { result ≡ slice_range self.now first next }
    {
        Due::new(&self.entries[first..next], &self.gaps[first..next])
    }

    /// The entries of a turn, in order.
    pub fn due(&self, turn: u64) -> Due<'_>
        ensures { result ≡ due turn self.now }
    {
        if self.is_over(turn) {
            return self.between(0, 0);
        }
        let (first, next) = places(&self.entries, turn);
        self.between(first, next)
    }
}
