//! What a worker asks before each of its turns.

ghost use Rattle.std.specs.Prelude.{ℕ};
ghost use Rattle.std.specs.Bool.{OnFalse, OnTrue};

/// What a worker asks before each of its turns.
pub trait Gate {
    /// For which worker and turn it may answer false.
    ghost may_stop: { Self → ℕ → ℕ → Type 0 };

    /// For which worker and turn it may answer true: for each, where an impl does not say.
    ghost may_pass: { Self → ℕ → ℕ → Type 0 } = { λ _ _ _. Unit {0} };

    /// Whether the worker, counted from 0, may take the turn, counted from 0. Where not, it takes no further turn.
    fn pass(&self, worker: usize, turn: u64) -> bool
        ensures stops { OnFalse result (may_stop self.now worker turn) }
        ensures goes { OnTrue result (may_pass self.now worker turn) };
}

/// A gate that stops nobody.
#[derive(Clone, Copy, Debug)]
pub struct FreeGate;

impl Gate for FreeGate {
    ghost may_stop = { λ _ _ _. ⊥ };

    fn pass(&self, _worker: usize, _turn: u64) -> bool {
        true
    }
}
