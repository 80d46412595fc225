//! A network split at its links into parts that move by themselves, joined (Dally and Towles, chapters 13 and 16).

ghost use Rattle.std.specs.Prelude.{◌≡◌, ℕ, ◌<◌, Bool, true, false, ◌==◌, List, [], ◌∷◌, ◌++◌, length, All, Some};
ghost use Rattle.worm_flit.specs.declared.Flit.{Flit};
ghost use Rattle.worm_flit.specs.Stamps.{on_channel, with_channel};
ghost use Rattle.worm_flit.specs.Worms.{IsWorm, Continues};
ghost use Rattle.worm_records.specs.declared.InRecord.TheVariants.{Active};
ghost use Rattle.worm_theory.specs.Shape.{Shape, IsMesh};
ghost use Rattle.worm_theory.specs.Network.{Network, put2};
ghost use Rattle.worm_theory.specs.Steps.{Step, FrontIs, IsPort, IsThere, Enabled, StepsLead, after, node_of};
ghost use Rattle.worm_theory.specs.Sound.{Leaves};
ghost use Rattle.worm_theory.specs.Growth.{SinksGrow, SourcesGrow};
ghost use Rattle.worm_theory.specs.Parts.{Parts, split, gathered};
ghost use Rattle.worm_theory.specs.PartSound.{PartHolds};
ghost use Rattle.worm_theory.specs.PartSteps.{PartStep, IsPartThere, PartEnabled, PartStepsLead, part_after};
ghost use Rattle.worm_theory.specs.Join.{Holds, IsRest, joined_parts};
ghost use Rattle.worm_theory.specs.Openings.{past_of};
ghost use Rattle.worm_theory.specs.Region.{HasPart, OwnSound, Begins};
ghost use Rattle.worm_theory.specs.Whole.{AreQueues, whole};

/// The nodes of a split network hold each by itself. What parts know of their nodes is, together, known of all nodes.
pub fn splits()
    ensures split { (s : Shape) (old : Network) → IsMesh s → Holds s old → PartHolds s old (split s old) }
    ensures gather { (s : Shape) (old : Network) (part : ℕ → Parts) → ((x : ℕ) → PartHolds s old (part x)) →
        PartHolds s old (gathered part) }
{}

/// Whatever moves a node makes, it holds by itself.
pub fn stays_in_parts()
    ensures step { (s : Shape) (old : Network) (parts : Parts) (step : PartStep) → IsMesh s → PartHolds s old parts →
        IsPartThere s step → PartEnabled s old parts step → PartHolds s old (part_after s parts step) }
    ensures steps { (s : Shape) (old : Network) (steps : List PartStep) (parts new : Parts) → IsMesh s →
        PartHolds s old parts → PartStepsLead s old parts steps new → PartHolds s old new }
{}

/// The nodes joined again make a network of which all holds that held at the split; its sinks and sources only grew.
pub fn joins()
    ensures holds { (s : Shape) (old : Network) (parts : Parts) (flits : ℕ → ℕ → List Flit)
        (credits : ℕ → ℕ → List ℕ) → IsMesh s → Holds s old → PartHolds s old parts → IsRest s parts flits credits →
        Holds s (joined_parts parts flits credits) }
    ensures sinks { (s : Shape) (old : Network) (parts : Parts) (flits : ℕ → ℕ → List Flit)
        (credits : ℕ → ℕ → List ℕ) → IsMesh s → PartHolds s old parts → IsRest s parts flits credits →
        SinksGrow s old (joined_parts parts flits credits) }
    ensures sources { (s : Shape) (old : Network) (parts : Parts) (flits : ℕ → ℕ → List Flit)
        (credits : ℕ → ℕ → List ℕ) → PartHolds s old parts → SourcesGrow old (joined_parts parts flits credits) }
{}

/// However the nodes move by themselves, and whatever is on their links then, the joined network holds again.
pub fn holds_again()
    ensures { (s : Shape) (old : Network) (steps : ℕ → List PartStep) (part : ℕ → Parts) (flits : ℕ → ℕ → List Flit)
        (credits : ℕ → ℕ → List ℕ) → IsMesh s → Holds s old →
        ((x : ℕ) → PartStepsLead s old (split s old) (steps x) (part x)) → IsRest s (gathered part) flits credits →
        Holds s (joined_parts (gathered part) flits credits) }
{}

/// A part as its owner keeps it (`HasPart`), a network of which some nodes are its own: each step at one of them
/// keeps it, and it knows what a step needs. A link within the part holds what is on it; one that leaves it all that
/// was sent since the split; one that enters it what came off its queue and is in no buffer yet.
pub fn stays_a_part()
    ensures first { (s : Shape) (old : Network) (own : ℕ → Bool) (net : Network) → IsMesh s → Holds s old →
        Begins s old own net → HasPart s old own net (λ y o. []) (λ y o. []) }
    ensures step { (s : Shape) (old : Network) (own : ℕ → Bool) (net : Network) (taken : ℕ → ℕ → List Flit)
        (returned : ℕ → ℕ → List ℕ) (step : Step) → IsMesh s →
        own (node_of step) ≡ true → IsThere s step → Enabled s net step → HasPart s old own net taken returned →
        HasPart s old own (after s net step) taken returned }
    ensures steps { (s : Shape) (old : Network) (own : ℕ → Bool) (net new : Network) (taken : ℕ → ℕ → List Flit)
        (returned : ℕ → ℕ → List ℕ) (steps : List Step) → IsMesh s →
        All (λ step. own (node_of step) ≡ true) steps → StepsLead s net steps new →
        HasPart s old own net taken returned → HasPart s old own new taken returned }
    ensures sound { (s : Shape) (old : Network) (own : ℕ → Bool) (net : Network) (taken : ℕ → ℕ → List Flit)
        (returned : ℕ → ℕ → List ℕ) → IsMesh s → HasPart s old own net taken returned → OwnSound s own net }
    ensures room { (s : Shape) (old : Network) (own : ℕ → Bool) (net : Network) (taken : ℕ → ℕ → List Flit)
        (returned : ℕ → ℕ → List ℕ) → IsMesh s → Holds s old → HasPart s old own net taken returned →
        (y o x : ℕ) → s.neighbour y o ≡ Some x → own y ≡ true → own x ≡ true → (f : Flit) (flits : List Flit) →
        net.out y o ≡ f ∷ flits → length (net.buffer x (s.opposite o) f.vc) < s.depth }
    ensures credit_room { (s : Shape) (old : Network) (own : ℕ → Bool) (net : Network) (taken : ℕ → ℕ → List Flit)
        (returned : ℕ → ℕ → List ℕ) → IsMesh s → Holds s old → HasPart s old own net taken returned →
        (y o x : ℕ) → s.neighbour y o ≡ Some x → own y ≡ true → own x ≡ true → (c : ℕ) (credits : List ℕ) →
        net.credit_list y o ≡ c ∷ credits → (c < s.vcs) × (net.credits y o c < s.depth) }
{}

/// Parts exchange flits and credits by queues, each channel of which is a worm from the queue's past on.
pub fn goes_between_parts()
    ensures past { (s : Shape) (old : Network) → IsMesh s → Holds s old → (y o x : ℕ) → s.neighbour y o ≡ Some x →
        (v : ℕ) → IsWorm (on_channel v (past_of s old y o x)) }
    ensures push { (s : Shape) (old : Network) (own : ℕ → Bool) (net : Network) (taken : ℕ → ℕ → List Flit)
        (returned : ℕ → ℕ → List ℕ) → IsMesh s → HasPart s old own net taken returned →
        (x p v o c z : ℕ) (f : Flit) → own x ≡ true → own z ≡ false → s.neighbour x o ≡ Some z → IsPort s x p →
        net.in_record x p v ≡ Active o c → FrontIs (net.buffer x p v) (λ front. front ≡ f) →
        Continues (on_channel c (past_of s old x o z ++ net.out x o)) (with_channel f c) ×
        Leaves s x o (with_channel f c) }
    ensures pull { (s : Shape) (old : Network) (own : ℕ → Bool) (net : Network) (taken : ℕ → ℕ → List Flit)
        (returned : ℕ → ℕ → List ℕ) → IsMesh s → HasPart s old own net taken returned →
        (y o x : ℕ) (f : Flit) → s.neighbour y o ≡ Some x → own y ≡ false → own x ≡ true →
        Continues (on_channel f.vc (past_of s old y o x ++ taken y o)) f → Leaves s y o f →
        HasPart s old own (record net { out = put2 net.out y o (net.out y o ++ f ∷ []) })
        (put2 taken y o (taken y o ++ f ∷ [])) returned }
    ensures pull_credit { (s : Shape) (old : Network) (own : ℕ → Bool) (net : Network) (taken : ℕ → ℕ → List Flit)
        (returned : ℕ → ℕ → List ℕ) → IsMesh s → HasPart s old own net taken returned →
        (y o x c : ℕ) → s.neighbour y o ≡ Some x → own y ≡ true → own x ≡ false →
        HasPart s old own (record net { credit_list = put2 net.credit_list y o (net.credit_list y o ++ c ∷ []) }) taken
        (put2 returned y o (returned y o ++ c ∷ [])) }
{}

/// The parts put together make a network of which all holds that held at the split; its sinks and sources only grew.
pub fn makes_a_whole()
    ensures { (s : Shape) (old : Network) (owner : ℕ → ℕ) (net : ℕ → Network) (taken : ℕ → ℕ → ℕ → List Flit)
        (returned : ℕ → ℕ → ℕ → List ℕ) (flits : ℕ → ℕ → List Flit) (credits : ℕ → ℕ → List ℕ) → IsMesh s →
        Holds s old →
        ((k : ℕ) → HasPart s old (λ x. owner x == k) (net k) (taken k) (returned k)) →
        AreQueues s owner net taken returned flits credits →
        let new = whole s owner net flits credits in
        Holds s new × SinksGrow s old new × SourcesGrow old new }
{}
