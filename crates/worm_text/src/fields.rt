//! The fields of a line, read from the left.

ghost use Rattle.std.specs.Prelude.{◌≡◌, ◌<◌, ◌≤◌, ◌+◌, [], ◌∷◌, length, take, drop, position, ◌==◌, MatchOption};
ghost use Rattle.std.specs.Prelude.{true, false, List, ℕ};
ghost use Rattle.worm_text.specs.Lines.{cut, space, fields_left, next_field};
ghost use Rattle.worm_text.specs.Numerals.{leading_digits, is_numeral, value_of, is_name, is_lower_or_digit};
ghost use Rattle.std.specs.List.{list_all};
ghost use Rattle.worm_text.specs.Reading.{Reads, Gives, number_at, name_at, word_at, key_at, no_more};

use crate::fault::Why;
use crate::key::Key;
use std::marker::Model;
use std::simd::Simd;
use worm_core::Name;

fn position_of(bytes: &[u8], end: u8) -> Option<usize>
    ensures { result ≡ position (λ b. b == end) bytes.now }
{
    // Most bytes of a text end no line, so sixteen are passed at a time.
    let mut at = 0;
    while bytes.len() - at >= 16 {
        if let Some(place) = place_within(bytes, at, end) {
            return Some(at + place);
        }
        at += 16;
    }
    let place = place_byte_by_byte(&bytes[at..], end)?;
    Some(at + place)
}

fn place_byte_by_byte(bytes: &[u8], end: u8) -> Option<usize>
    ensures { result ≡ position (λ b. b == end) bytes.now }
{
    bytes.iter().position(|b| *b == end)
}

fn place_within(bytes: &[u8], at: usize, end: u8) -> Option<usize>
    requires { at + 16 ≤ length bytes.now }
    ensures { result ≡ position (λ b. b == end) (take 16 (drop at bytes.now)) }
{
    // One comparison tests all sixteen; bit k of the mask tells of byte k.
    let marks = Simd::<u8, 16>::from_slice(&bytes[at..])
        .simd_eq(Simd::splat(end))
        .to_bitmask();
    if marks == 0 {
        return None;
    }
    Some(marks.trailing_zeros() as usize)
}

/// The bytes before the first `end`, and those after it.
pub fn cut_first(bytes: &[u8], end: u8) -> Option<(&[u8], &[u8])>
    ensures parts { MatchOption result (cut end bytes.now ≡ bytes.now ∷ [])
        (λ p. cut end bytes.now ≡ p.0.now ∷ cut end p.1.now) }
    ensures shorter { MatchOption result (Unit {0}) (λ p. length p.1.now < length bytes.now) }
{
    match position_of(bytes, end) {
        None => None,
        Some(at) => Some((&bytes[..at], &bytes[at + 1..])),
    }
}

#[derive(Clone, Copy)]
struct Digits {
    count: usize,
    value: u64,
}

fn front_digits(bytes: &[u8]) -> Digits
    ensures count { result.count ≡ length (leading_digits bytes.now) }
    ensures value { result.count ≤ 10 → result.value ≡ value_of (leading_digits bytes.now) }
{
    let mut value = 0u64;
    let mut count = 0;
    while count < bytes.len() && bytes[count] >= b'0' && bytes[count] <= b'9' {
        let digit = u64::from(bytes[count] - b'0');
        value = value.wrapping_mul(10).wrapping_add(digit);
        count += 1;
    }
    Digits { count, value }
}

fn is_name_text(field: &[u8]) -> bool
    ensures { result ≡ is_name field.now }
{
    match field {
        [] => false,
        [first, others @ ..] => {
            *first >= b'a' && *first <= b'z' && are_name_bytes(others) && others.len() <= 15
        }
    }
}

fn are_name_bytes(bytes: &[u8]) -> bool
    ensures { result ≡ list_all is_lower_or_digit bytes.now }
{
    bytes
        .iter()
        .all(|b| *b >= b'a' && *b <= b'z' || *b >= b'0' && *b <= b'9')
}

/// The name that a field is, if it is one.
pub fn name_of(field: &[u8]) -> Option<Name>
    ensures { MatchOption result (is_name field.now ≡ false)
        (λ name. (is_name field.now ≡ true) × (name.bytes ≡ field.now)) }
{
    if !is_name_text(field) {
        return None;
    }
    let mut name = Name::new();
    for byte in field {
        name.push(char::from(*byte));
    }
    Some(name)
}

/// The fields that are left of a line. A call that reads takes one field, also where it is not what was asked for.
///
/// `Fields::new(b"depth 2")` has the word `depth` and the number 2; `b"depth "` has the word and an empty field.
#[derive(Drop)]
pub struct Fields<'a> {
    /// What stands after the last space that was met; none where the line's last field was read.
    rest: Option<&'a [u8]>,
}

impl<'a> Model for Fields<'a> {
    ghost Value = { List (List ℕ) };

    ghost view = { λ s. fields_left s.rest };
}

impl<'a> Fields<'a> {
    /// All fields of a line: one at least, which may be empty.
    pub fn new(line: &'a [u8]) -> Self
        ensures { result ≡ cut space line.now }
    {
        Fields { rest: Some(line) }
    }

    /// Whether all fields were read.
    pub fn is_over(&self) -> bool
        ensures { result ≡ (length self.now == 0) }
    {
        self.rest.is_none()
    }

    /// The next field, if there is one.
    pub fn next(&mut self) -> Option<&'a [u8]>
        ensures { MatchOption result ((self.old ≡ []) × (self.new ≡ [])) (λ f. self.old ≡ f.now ∷ self.new) }
    {
        let rest = self.rest?;
        match cut_first(rest, b' ') {
            None => {
                self.rest = None;
                Some(rest)
            }
            Some((field, after)) => {
                self.rest = Some(after);
                Some(field)
            }
        }
    }

    /// A number from `low` to `high`. `Missing` where no field is left, `Number` if it is no numeral, else `Range`.
    #[inline(always)]
    pub fn number(&mut self, low: u32, high: u32) -> Result<u32, Why>
        ensures answer { Reads (λ x. x) result self.new (number_at low high self.old) }
        ensures one { self.new ≡ drop 1 self.old }
    {
        let Some(rest) = self.rest else {
            return Err(Why::Missing);
        };
        let front = front_digits(rest);
        if !self.take_numeral(rest, front.count) {
            return Err(Why::Number);
        }
        // A number of more digits is past any `high`.
        if front.count > 10 || front.value < u64::from(low) || front.value > u64::from(high) {
            return Err(Why::Range);
        }
        Ok(front.value as u32)
    }

    fn take_numeral(&mut self, rest: &'a [u8], count: usize) -> bool
        requires rest { self.old ≡ cut space rest.now }
        requires count { count ≡ length (leading_digits rest.now) }
        ensures answer { result ≡ is_numeral (next_field self.old) }
        ensures one { self.old ≡ next_field self.old ∷ self.new }
    {
        match &rest[count..] {
            [] => self.rest = None,
            [b' ', after @ ..] => self.rest = Some(after),
            _ => {
                let _ = self.next();
                return false;
            }
        }
        count == 1 || count > 1 && rest[0] != b'0'
    }

    /// A name. `Missing` where no field is left, `Name` where the field is none.
    pub fn name(&mut self) -> Result<Name, Why>
        ensures answer { Reads (λ name. name.bytes) result self.new (name_at self.old) }
        ensures one { self.new ≡ drop 1 self.old }
    {
        let Some(field) = self.next() else {
            return Err(Why::Missing);
        };
        match name_of(field) {
            Some(name) => Ok(name),
            None => Err(Why::Name),
        }
    }

    /// This word. `Missing` where no field is left, `UnknownWord` where the field is another one.
    pub fn word(&mut self, word: &[u8]) -> Result<(), Why>
        ensures answer { Gives (λ _. self.new) result (word_at word.now self.old) }
        ensures one { self.new ≡ drop 1 self.old }
    {
        match self.next() {
            None => Err(Why::Missing),
            Some(field) if field == word => Ok(()),
            Some(_) => Err(Why::UnknownWord),
        }
    }

    /// The word that begins the line. `Missing` where no field is left, `UnknownWord` where it is no such word.
    pub fn key(&mut self) -> Result<Key, Why>
        ensures answer { Reads (λ x. x) result self.new (key_at self.old) }
        ensures one { self.new ≡ drop 1 self.old }
    {
        let Some(field) = self.next() else {
            return Err(Why::Missing);
        };
        Key::of(field).ok_or(Why::UnknownWord)
    }

    /// No further field. `TooMany` where there is one.
    pub fn end(&mut self) -> Result<(), Why>
        ensures answer { Gives (λ _. []) result (no_more self.old) }
        ensures one { self.new ≡ drop 1 self.old }
    {
        match self.next() {
            None => Ok(()),
            Some(_) => Err(Why::TooMany),
        }
    }
}
