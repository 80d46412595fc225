ghost use Rattle.std.specs.Prelude.{◌≡◌, ℕ, ◌<◌, ◌≤◌, ◌+◌, ◌↔◌, ◌==◌, IsTrue, length, sum, slice_index};
ghost use Rattle.std.specs.Int.{bit_at};
ghost use Rattle.worm_flit.specs.Channels.{AreChannels, class_bits, first_channel, owner_of, owns};

use arrayvec::ArrayVec;
use std::marker::Model;

/// Whether classes may own these numbers of channels: 1 to 4 numbers, each 1 to 8, at most 8 in all.
pub fn are_channels(counts: &[u8]) -> bool
    ensures { IsTrue result ↔ AreChannels counts.now }
{
    if counts.is_empty() || counts.len() > 4 {
        return false;
    }
    if !counts.iter().all(|count| 1 <= *count && *count <= 8) {
        return false;
    }
    let mut total = 0u8;
    for count in counts {
        total += *count;
    }
    total <= 8
}

/// How many virtual channels each class owns on every link, class 0 the lowest (Dally and Towles, chapter 13).
#[derive(Debug, Drop)]
pub struct ClassChannels {
    counts: ArrayVec<u8, 4>,
    total: u8,
}

impl Model for ClassChannels {
    ghost use Rattle.std.specs.Prelude.{ℕ, List, ◌≡◌, sum};
    ghost use Rattle.worm_flit.specs.Channels.{AreChannels};

    ghost Value = { List ℕ };

    ghost view = { λ c. c.counts.items };

    ghost invariant = { λ c. AreChannels c.counts.items × (c.total ≡ sum c.counts.items) };
}

impl ClassChannels {
    /// The channels of classes that own these numbers of them, class 0 first; [`are_channels`] is the test.
    pub fn new(counts: &[u8]) -> ClassChannels
        requires { AreChannels counts.now }
        ensures { result ≡ counts.now }
    {
        let mut kept = ArrayVec::new();
        let mut total = 0u8;
        for count in counts {
            kept.push(*count);
            total += *count;
        }
        ClassChannels {
            counts: kept,
            total,
        }
    }

    /// The number of classes, 1 to 4.
    pub fn classes(&self) -> u8
        ensures value { result ≡ length self.now }
        ensures bound { result ≤ 4 }
    {
        self.counts.len() as u8
    }

    /// The number of channels of all classes, 1 to 8.
    pub fn total(&self) -> u8
        ensures value { result ≡ sum self.now }
        ensures sound { AreChannels self.now }
    {
        self.total
    }

    /// How many channels the class owns, 1 to 8.
    pub fn count(&self, class: u8) -> u8
        requires { class < length self.now }
        ensures { result ≡ slice_index self.now class }
    {
        self.counts[usize::from(class)]
    }

    /// The first channel of the class.
    pub fn first(&self, class: u8) -> u8
        requires { class < length self.now }
        ensures value { result ≡ first_channel self.now class }
        ensures bound { result + slice_index self.now class ≤ 8 }
    {
        let mut first = 0u8;
        for count in &self.counts.as_slice()[..usize::from(class)] {
            first += *count;
        }
        first
    }

    /// The class that owns the channel.
    pub fn owner(&self, channel: u8) -> u8
        requires { channel < sum self.now }
        ensures value { result ≡ owner_of self.now channel }
        ensures class { result < length self.now }
        ensures owned { IsTrue (owns self.now result channel) }
    {
        let mut rest = channel;
        let mut class = 0u8;
        for count in self.counts.as_slice() {
            if rest < *count {
                return class;
            }
            rest -= *count;
            class += 1;
        }
        class
    }

    /// The channels of the class, as a bit for each: bit `c` is 1 where channel `c` is the class's.
    pub fn mask(&self, class: u8) -> u8
        ensures value { result ≡ class_bits self.now class }
        ensures bits { (channel : ℕ) → channel < 8 → (bit_at result channel == 1) ≡ owns self.now class channel }
    {
        if class >= self.classes() {
            return 0;
        }
        let first = self.first(class);
        let count = self.counts[usize::from(class)];
        (((1u16 << count) - 1) << first) as u8
    }

    /// Whether the channel is one of the class's; no channel is of a class that is not there.
    pub fn owns(&self, class: u8, channel: u8) -> bool
        ensures { result ≡ owns self.now class channel }
    {
        if class >= self.classes() {
            return false;
        }
        let first = self.first(class);
        let count = self.counts[usize::from(class)];
        first <= channel && channel < first + count
    }
}
