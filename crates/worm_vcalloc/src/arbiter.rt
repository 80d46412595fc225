ghost use Rattle.std.specs.Prelude.{◌≡◌, ◌^◌, ◌<◌, ◌≤◌, IfSome, MatchOption, Some};
ghost use Rattle.worm_vcalloc.specs.Arbiter.{ArbiterState, winner, line_requests, after_pick, IsFirstRequester};
ghost use Rattle.worm_vcalloc.specs.Arbiter.{NoRequester};

use std::marker::Model;

/// A round-robin arbiter over 1 to 64 lines (Dally and Towles, chapter 18): the first requester at its pointer or
/// after it, cyclically, wins. Kept is the line before the pointer, so that no move looks whether it is at the end.
///
/// ```text
/// let mut arbiter = Arbiter::new(3);
/// arbiter.pick(0b101) // Some(0); the pointer is now 1
/// arbiter.pick(0b101) // Some(2); the pointer is now 0
/// ```
#[derive(Clone, Copy)]
pub struct Arbiter {
    width: u8,
    last: u8,
}

impl Model for Arbiter {
    ghost use Rattle.std.proofs.Common.{ap, arith, inl, inr, refl, ◌∙◌};
    ghost use Rattle.std.proofs.Math.Nat.{mod-eq_of_lt, mod_self};
    ghost use Rattle.std.proofs.lemmas.Bool.{cases_eq};
    ghost use Rattle.std.proofs.lemmas.Nat.{mod-mul-add};
    ghost use Rattle.std.specs.Prelude.{◌<◌, ◌≤◌, ◌≡◌, ◌+◌, ◌-◌, ◌*◌, ◌%◌};
    ghost use Rattle.worm_vcalloc.specs.Arbiter.{ArbiterState, asking_last, last_of};

    ghost Value = { ArbiterState };

    ghost view = { λ a. asking_last a.width a.last };

    ghost invariant = { λ a. (a.last < a.width) × (a.width ≤ 64) };

    ghost inverse = { λ v. record { width = v.width; last = last_of v } };

    ghost inverse_ok = { λ a h.
        let inside = h.0 in
        let again : last_of (asking_last a.width a.last) ≡ a.last = elim (cases_eq (a.last + 1) a.width) [
          | inl end ↦
              let first : (a.last + 1) % a.width ≡ 0 = ap (λ n. n % a.width) end ∙ mod_self a.width in
              let back : (a.last + 1) % a.width + a.width - 1 ≡ a.last = Prim.omega arith in
              ap (λ n. n % a.width) back ∙ mod-eq_of_lt inside
          | inr other ↦
              let next : (a.last + 1) % a.width ≡ a.last + 1 = mod-eq_of_lt (Prim.omega arith) in
              let round : (a.last + 1) % a.width + a.width - 1 ≡ 1 * a.width + a.last = Prim.omega arith in
              ap (λ n. n % a.width) round ∙ mod-mul-add 1 a.width a.last inside
        ] in
        Prim.rw again refl };
}

impl Arbiter {
    /// An arbiter of `width` lines, whose pointer stands at the first.
    pub fn new(width: u8) -> Self
        requires some { 0 < width }
        requires few { width ≤ 64 }
        ensures { result ≡ record { width = width; pointer = 0 } }
    {
        Arbiter {
            width,
            last: width - 1,
        }
    }

    /// The line that is asked first.
    pub fn pointer(&self) -> u8
        ensures { result ≡ self.now.pointer }
    {
        let next = self.last + 1;
        if next < self.width { next } else { 0 }
    }

    /// The line that `pick` would choose among `requests`, where bit i stands for line i.
    pub fn peek(&self, requests: u64) -> Option<u8>
        requires { requests < 2 ^ self.now.width }
        ensures winner { result ≡ winner self.now (line_requests requests) }
        ensures first { MatchOption result (NoRequester self.now (line_requests requests))
            (IsFirstRequester self.now (line_requests requests)) }
        ensures within { IfSome result (λ line. line < self.now.width) }
    {
        let ahead = requests >> self.last >> 1;
        if requests == 0 {
            return None;
        }
        // Both ways are worked out and one is kept: which it is no processor guesses well.
        let (among, before) = if ahead != 0 {
            (ahead, self.last + 1)
        } else {
            (requests, 0)
        };
        Some(before + among.trailing_zeros() as u8)
    }

    /// Moves the pointer past a line, as `pick` does where it chooses that line.
    pub fn move_past(&mut self, line: u8)
        requires { line < self.old.width }
        ensures { self.new ≡ after_pick self.old (Some line) }
    {
        self.last = line;
    }

    /// Chooses the first of `requests` at the pointer or after it, and moves the pointer past it.
    pub fn pick(&mut self, requests: u64) -> Option<u8>
        requires { requests < 2 ^ self.old.width }
        ensures winner { result ≡ winner self.old (line_requests requests) }
        ensures pointer { self.new ≡ after_pick self.old result }
        ensures within { IfSome result (λ line. line < self.old.width) }
    {
        let line = self.peek(requests)?;
        self.move_past(line);
        Some(line)
    }
}
