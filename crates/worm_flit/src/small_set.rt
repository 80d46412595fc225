//! Sets of numbers below eight.

ghost use Rattle.std.specs.Prelude.{ℕ, ◌≡◌, ◌==◌, ◌<◌, ◌&&◌, MatchOption, false, not, true};
ghost use Rattle.worm_flit.specs.SmallSet.{has, IsFirst, IsPut};

use std::marker::Model;

/// A set of numbers 0 to 7: of ports, of channels, or of classes.
///
/// ```text
/// let mut left = links.flits_in(node);
/// while let Some(port) = left.pop_first() { .. }
/// ```
#[derive(Clone, Copy)]
pub struct SmallSet {
    /// Bit `number` is 1 where the number is in the set.
    bits: u8,
}

impl Model for SmallSet {
    ghost use Rattle.std.specs.Prelude.{ℕ};

    ghost Value = { ℕ };

    ghost view = { λ s. s.bits };

    ghost inverse = { λ v. record { bits = v } };
}

impl SmallSet {
    /// The set without a number.
    pub fn new() -> Self
        ensures { result ≡ 0 }
    {
        SmallSet { bits: 0 }
    }

    /// The numbers whose bits are 1.
    pub fn from_bits(bits: u8) -> Self
        ensures { result ≡ bits }
    {
        SmallSet { bits }
    }

    /// Whether no number is in the set.
    pub fn is_empty(&self) -> bool
        ensures value { result ≡ (self.now == 0) }
        ensures some { result ≡ false → (n : ℕ) × (n < 8) × (has self.now n ≡ true) }
    {
        self.bits == 0
    }

    /// Whether the number is in the set.
    pub fn contains(&self, number: u8) -> bool
        requires { number < 8 }
        ensures { result ≡ has self.now number }
    {
        self.bits >> number & 1 == 1
    }

    /// Takes out the least number; None where the set is empty.
    pub fn pop_first(&mut self) -> Option<u8>
        ensures { MatchOption result ((self.old ≡ 0) × (self.new ≡ 0)) (IsFirst self.old self.new) }
    {
        if self.bits == 0 {
            return None;
        }
        let number = self.bits.trailing_zeros() as u8;
        self.bits &= self.bits - 1;
        Some(number)
    }

    fn insert(&mut self, number: u8)
        requires { number < 8 }
        ensures { IsPut self.old self.new number true }
    {
        self.bits |= 1 << number;
    }

    fn remove(&mut self, number: u8)
        requires { number < 8 }
        ensures { IsPut self.old self.new number false }
    {
        self.bits &= !(1 << number);
    }

    /// Puts the number into the set, or takes it out where `within` is false.
    pub fn put(&mut self, number: u8, within: bool)
        requires { number < 8 }
        ensures { IsPut self.old self.new number within }
    {
        if within {
            self.insert(number);
        } else {
            self.remove(number);
        }
    }

    /// The numbers that are in this set and not in the other.
    pub fn difference(&self, other: &SmallSet) -> SmallSet
        ensures { (n : ℕ) → n < 8 → has result n ≡ (has self.now n && not (has other.now n)) }
    {
        SmallSet {
            bits: self.bits & !other.bits,
        }
    }
}
