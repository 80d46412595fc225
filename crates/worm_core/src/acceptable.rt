//! Scripts that no source refuses.

ghost use Rattle.std.specs.Prelude.{ℕ, List};
ghost use Rattle.worm_script.specs.declared.entry.Entry.{Entry};
ghost use Rattle.worm_core.specs.Acceptable.{IsAcceptableScript, IsTakenWhole};

/// Only want of memory ends a new network's run of such a script: its lanes are the network's, it closes only lanes
/// of one-channel classes, no entry follows its lane's close, and its entries, fewer than 65,535, are in turn order.
#[tactic(auto, using(crate::proofs::NeverRefused::never_refused))]
pub fn acceptable_scripts_are_taken()
    ensures { (mesh : List ℕ) (channels : List ℕ) (script : List Entry) → IsAcceptableScript mesh channels script
        → IsTakenWhole mesh channels script }
{}
