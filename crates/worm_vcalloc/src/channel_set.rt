ghost use Rattle.std.specs.Prelude.{◌≡◌, ℕ, ◌^◌, ◌<◌, ◌≤◌, ◌==◌, ◌&&◌, ◌||◌, MatchOption, not};
ghost use Rattle.worm_vcalloc.specs.Arbiter.{line_requests};
ghost use Rattle.worm_vcalloc.specs.ChannelSet.{has, IsPut, IsFirst, IsFirstFrom, IsFirstPort, IsLowest};

use std::marker::Model;

/// A set of the channels of a router, of up to 7 ports by 8 channels, in one word.
///
/// ```text
/// let mut waiting = ChannelSet::new();
/// waiting.put(2, 0, true);
/// waiting.pop_first() // Some((2, 0))
/// ```
#[derive(Clone, Copy)]
pub struct ChannelSet {
    /// Bit `8 * port + channel` is 1 where the channel is in the set.
    bits: u64,
}

impl Model for ChannelSet {
    ghost Value = { ℕ };

    ghost view = { λ s. s.bits };

    ghost invariant = { λ s. s.bits < 2 ^ 56 };

    ghost inverse = { λ v. record { bits = v } };
}

impl ChannelSet {
    /// The set without a channel.
    pub fn new() -> Self
        ensures { result ≡ 0 }
    {
        ChannelSet { bits: 0 }
    }

    /// Whether no channel is in the set.
    pub fn is_empty(&self) -> bool
        ensures { result ≡ (self.now == 0) }
    {
        self.bits == 0
    }

    /// Whether a channel is in the set.
    pub fn contains(&self, port: u8, channel: u8) -> bool
        requires port { port < 7 }
        requires channel { channel < 8 }
        ensures { result ≡ has self.now port channel }
    {
        self.bits >> (8 * port + channel) & 1 == 1
    }

    /// Puts a channel into the set, or takes it out where `within` is false.
    pub fn put(&mut self, port: u8, channel: u8, within: bool)
        requires port { port < 7 }
        requires channel { channel < 8 }
        ensures { IsPut self.old self.new port channel within }
    {
        // Without a branch, since whether it comes or goes can seldom be foretold.
        let place = 8 * port + channel;
        self.bits = self.bits & !(1 << place) | u64::from(within) << place;
    }

    /// Puts a channel into the set where it `comes`. It takes none out, so it costs less than `put`.
    pub fn insert_if(&mut self, port: u8, channel: u8, comes: bool)
        requires port { port < 7 }
        requires channel { channel < 8 }
        ensures { IsPut self.old self.new port channel (has self.old port channel || comes) }
    {
        self.bits |= u64::from(comes) << (8 * port + channel);
    }

    /// Takes a channel out of the set where it `goes`. Where it does not, the set stays as it is.
    pub fn remove_if(&mut self, port: u8, channel: u8, goes: bool)
        requires port { port < 7 }
        requires channel { channel < 8 }
        ensures { IsPut self.old self.new port channel (has self.old port channel && not goes) }
    {
        self.bits &= !(u64::from(goes) << (8 * port + channel));
    }

    /// Takes out the first channel, by rising port and then channel; None where the set is empty.
    pub fn pop_first(&mut self) -> Option<(u8, u8)>
        ensures { MatchOption result ((self.old ≡ 0) × (self.new ≡ 0))
            (λ place. IsFirst self.old self.new place.0 place.1) }
    {
        if self.bits == 0 {
            return None;
        }
        let bit = self.bits.trailing_zeros() as u8;
        self.bits &= self.bits - 1;
        Some((bit / 8, bit % 8))
    }

    pub(crate) fn first_from(&self, place: u8) -> Option<(u8, u8)>
        requires { place ≤ 56 }
        ensures { MatchOption result (self.now ≡ 0) (λ found. IsFirstFrom self.now place found.0 found.1) }
    {
        if self.bits == 0 {
            return None;
        }
        let ahead = self.bits >> place << place;
        let asked = if ahead != 0 { ahead } else { self.bits };
        let bit = asked.trailing_zeros() as u8;
        Some((bit / 8, bit % 8))
    }

    /// Takes out all channels of the first port that has any, and names that port; None where the set is empty.
    pub fn pop_port(&mut self) -> Option<u8>
        ensures { MatchOption result ((self.old ≡ 0) × (self.new ≡ 0)) (λ port. IsFirstPort self.old self.new port) }
    {
        let (port, _lowest) = self.pop_port_lowest()?;
        Some(port)
    }

    /// As `pop_port`, but names the lowest of these channels, too.
    pub fn pop_port_lowest(&mut self) -> Option<(u8, u8)>
        ensures { MatchOption result ((self.old ≡ 0) × (self.new ≡ 0))
            (λ place. IsFirstPort self.old self.new place.0 × IsLowest self.old place.0 place.1) }
    {
        if self.bits == 0 {
            return None;
        }
        let first = self.bits.trailing_zeros() as u8;
        let (port, channel) = (first / 8, first % 8);
        self.bits &= !(0xff << (8 * port));
        Some((port, channel))
    }

    /// The channels that are in both sets.
    pub fn intersection(&self, other: &ChannelSet) -> ChannelSet
        ensures { (p c : ℕ) → has result p c ≡ (has self.now p c && has other.now p c) }
    {
        ChannelSet {
            bits: self.bits & other.bits,
        }
    }

    /// The channels that are in this set and not in the other.
    pub fn difference(&self, other: &ChannelSet) -> ChannelSet
        ensures { (p c : ℕ) → p < 7 → c < 8 → has result p c ≡ (has self.now p c && not (has other.now p c)) }
    {
        ChannelSet {
            bits: self.bits & !other.bits,
        }
    }

    /// The channels of one port below `vcs`, as the lines of an arbiter: bit `channel`.
    pub fn row(&self, port: u8, vcs: u8) -> u64
        requires port { port < 7 }
        requires vcs { vcs ≤ 8 }
        ensures few { result < 2 ^ vcs }
        ensures lines { (channel : ℕ) → channel < vcs → line_requests result channel ≡ has self.now port channel }
    {
        self.bits >> (8 * port) & ((1 << vcs) - 1)
    }
}
