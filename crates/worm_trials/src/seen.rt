//! What a trial sees.

ghost use Rattle.std.specs.Prelude.{◌≡◌, if◌then◌else◌};

/// What a trial saw.
#[derive(Clone, Copy)]
pub enum Seen {
    /// Each call was done, and left what is worked out.
    Whole,
    /// A call said that there was no memory, and left what it promises then.
    Refused,
    /// A worker said so of one of its turns, and the others went on.
    Stopped,
    /// An answer, or what a call left, was another.
    Wrong,
}

impl Seen {
    /// The word that the program says.
    pub fn word(self) -> &'static str {
        match self {
            Seen::Whole => "whole",
            Seen::Refused => "refused",
            Seen::Stopped => "stopped",
            Seen::Wrong => "wrong",
        }
    }

    /// `Refused` where a call was, else `Whole`.
    pub fn of(refused: bool) -> Seen
        ensures { result ≡ (if refused then Seen.Refused else Seen.Whole) }
    {
        if refused { Seen::Refused } else { Seen::Whole }
    }

    /// What was seen where this holds, else `Wrong`.
    pub fn only_if(self, holds: bool) -> Seen {
        if holds { self } else { Seen::Wrong }
    }

    /// What was seen in both: `Wrong` in one is `Wrong`, and `Whole` in both is `Whole`.
    pub fn and(self, other: Seen) -> Seen {
        match (self, other) {
            (Seen::Wrong, _) | (_, Seen::Wrong) => Seen::Wrong,
            (Seen::Stopped, _) | (_, Seen::Stopped) => Seen::Stopped,
            (Seen::Refused, _) | (_, Seen::Refused) => Seen::Refused,
            (Seen::Whole, Seen::Whole) => Seen::Whole,
        }
    }

    pub fn is_whole(self) -> bool {
        matches!(self, Seen::Whole)
    }

    pub fn is_refused(self) -> bool {
        matches!(self, Seen::Refused)
    }
}
