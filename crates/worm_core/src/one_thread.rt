//! Turns on one thread have one outcome.

ghost use Rattle.std.specs.Prelude.{ℕ, List};
ghost use Rattle.worm_script.specs.declared.entry.Entry.{Entry};
ghost use Rattle.worm_region.specs.NewNet.{IsOneNetwork};
ghost use Rattle.worm_region.specs.Turns.{IsDetermined, RunIsDetermined, Turn};

/// Unless want of memory ends it, a turn, or a run of turns with its drain, leads from a network and a script to one
/// network, and stops at one place with one fault, or not at all. Each configuration has one new network.
#[tactic(auto, using(crate::proofs::Determined::turn_one, crate::proofs::Determined::run_one))]
pub fn turns_are_determined()
    ensures opening { (mesh : List ℕ) (channels : List ℕ) (depth : ℕ) (names : List (List ℕ)) →
        IsOneNetwork mesh channels depth names }
    ensures turn { (entries : List Entry) → IsDetermined (Turn entries) }
    ensures run { (script : List Entry) (turns drain : ℕ) → RunIsDetermined script turns drain }
{}
