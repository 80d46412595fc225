ghost use Rattle.std.specs.Prelude.{◌≡◌, ℕ, ◌<◌, Some, None, is_some, replicate, true};
ghost use Rattle.worm_vcalloc.specs.ChannelSet.{has};
ghost use Rattle.worm_vcalloc.specs.Table.{IsTable, cell, with_cell};

use crate::channel_set::ChannelSet;
use crate::rows::entry;
use std::marker::Model;

/// Numbers for some channels of a router, by port and channel. One bit takes a number away; its entry is left over.
///
/// ```text
/// let mut left = map.keys();
/// while let Some((port, channel)) = left.pop_first() { .. map.number(port, channel) .. }
/// ```
#[derive(Drop)]
pub struct ChannelMap {
    numbers: [[u8; 8]; 7],
    keys: ChannelSet,
}

impl Model for ChannelMap {
    ghost use Rattle.std.specs.Prelude.{ℕ, List, Option};
    ghost use Rattle.worm_vcalloc.specs.Table.{keyed};

    ghost Value = { List (List (Option ℕ)) };

    ghost view = { λ m. keyed 0 m.keys m.numbers };
}

impl ChannelMap {
    /// No number.
    pub fn new() -> Self
        ensures { result ≡ replicate 7 (replicate 8 None) }
    {
        ChannelMap {
            numbers: [[0; 8]; 7],
            keys: ChannelSet::new(),
        }
    }

    /// The numbers of an array by port and channel.
    pub fn from_rows(rows: &[[Option<u8>; 8]; 7]) -> Self
        ensures value { result ≡ rows.now }
        ensures shape { IsTable result }
    {
        let mut map = ChannelMap::new();
        for place in 0..56u8 {
            let (port, channel) = (place / 8, place % 8);
            let row = &rows[port as usize];
            map.set(port, channel, entry(row, channel));
        }
        map
    }

    /// The numbers as an array by port and channel.
    pub fn to_rows(&self) -> [[Option<u8>; 8]; 7]
        ensures { result ≡ self.now }
    {
        // The proof needs the shape of the rows.
        let _ = &self.keys;
        let mut rows = [[None; 8]; 7];
        for place in 0..56u8 {
            let (port, channel) = (place / 8, place % 8);
            let row = &mut rows[port as usize];
            row[channel as usize] = self.get(port, channel);
        }
        rows
    }

    /// The number of a channel, if it has one.
    pub fn get(&self, port: u8, channel: u8) -> Option<u8>
        requires port { port < 7 }
        requires channel { channel < 8 }
        ensures { result ≡ cell self.now port channel None }
    {
        if self.keys.contains(port, channel) {
            Some(self.number(port, channel))
        } else {
            None
        }
    }

    /// The number of a channel that has one.
    pub fn number(&self, port: u8, channel: u8) -> u8
        requires port { port < 7 }
        requires channel { channel < 8 }
        requires within { is_some (cell self.now port channel None) ≡ true }
        ensures { Some result ≡ cell self.now port channel None }
    {
        self.numbers[port as usize][channel as usize]
    }

    /// The channels that have a number.
    pub fn keys(&self) -> ChannelSet
        ensures { (p c : ℕ) → p < 7 → c < 8 → has result p c ≡ is_some (cell self.now p c None) }
    {
        self.keys
    }

    /// Gives a channel a number, or takes it away.
    pub fn set(&mut self, port: u8, channel: u8, number: Option<u8>)
        requires port { port < 7 }
        requires channel { channel < 8 }
        ensures { self.new ≡ with_cell self.old port channel number }
    {
        self.keys.put(port, channel, number.is_some());
        if let Some(number) = number {
            let row = &mut self.numbers[port as usize];
            row[channel as usize] = number;
        }
    }
}
