//! A k-ary n-mesh with dimension-order routes is a shape of the theory (Dally and Towles, chapters 5 and 8).

ghost use Rattle.std.specs.Prelude.{ℕ, true, ◌≡◌, ◌↔◌, List};
ghost use Rattle.worm_flit.specs.declared.Lane.{Lane};
ghost use Rattle.worm_flit.specs.Channels.{AreChannels, owns};
ghost use Rattle.worm_mesh.specs.Address.{AreRadices};
ghost use Rattle.worm_route.specs.Places.{Source, Buffer, Link, IsPlaceOf};
ghost use Rattle.worm_route.specs.LaneMachine.{IsMachine};
ghost use Rattle.worm_route.specs.Crossing.{crosses};
ghost use Rattle.worm_theory.specs.Shape.{IsMesh, HasLane, Owns, Enters};
ghost use Rattle.worm_theory.specs.Network.{Network};
ghost use Rattle.worm_theory.specs.Steps.{Step, StepsLead, empty};
ghost use Rattle.worm_theory.specs.Sound.{Sound};
ghost use Rattle.worm_theory.specs.Cut.{LanesCut};
ghost use Rattle.worm_theory.specs.PacketCut.{PacketsHold};
ghost use Rattle.worm_theory.specs.ShapeOf.{shape_of};
ghost use Rattle.worm_theory.specs.Standing.{LeavesBy};
ghost use Rattle.worm_theory.specs.LaneMoves.{lane_machine, EachMovesOne, LanesAreCut, LanesAreNowhereElse};
ghost use Rattle.worm_theory.specs.PacketPlaces.{PacketsAreCut, OpenPacketsAreActive};

/// The shape of each mesh with its classes is what the theory asks for; a class owns the channels that it is given.
pub fn is_a_mesh()
    ensures mesh { (ks counts : List ℕ) (depth : ℕ) → AreRadices ks → AreChannels counts →
        IsMesh (shape_of ks counts depth) }
    ensures owned { (ks counts : List ℕ) (depth class channel : ℕ) →
        (Owns (shape_of ks counts depth) class channel ↔ (owns counts class channel ≡ true)) }
{}

/// A lane's places are where the theory lets its flits stand: the source, and the buffers and links of its route.
pub fn places_are_entered()
    ensures buffers { (ks counts : List ℕ) (depth : ℕ) (lane : Lane) → let s = shape_of ks counts depth in
        AreRadices ks → HasLane s lane → (x p : ℕ) →
        (Enters s lane x p ↔ IsPlaceOf ks lane.src lane.dst (Buffer x p)) }
    ensures links { (ks counts : List ℕ) (depth : ℕ) (lane : Lane) → let s = shape_of ks counts depth in
        AreRadices ks → HasLane s lane → (x o : ℕ) →
        (LeavesBy s lane x o ↔ IsPlaceOf ks lane.src lane.dst (Link x o)) }
    ensures source { (ks counts : List ℕ) (depth : ℕ) (lane : Lane) → let s = shape_of ks counts depth in
        AreRadices ks → HasLane s lane →
        IsPlaceOf ks lane.src lane.dst Source }
{}

/// The test whether a route crosses a link is true exactly where the theory's flits of the lane leave by that link.
pub fn test_is_exact()
    ensures { (ks counts : List ℕ) (depth : ℕ) (lane : Lane) → let s = shape_of ks counts depth in
        AreRadices ks → HasLane s lane → (x port : ℕ) →
        ((crosses ks x port lane.src lane.dst ≡ true) ↔ LeavesBy s lane x port) }
{}

/// What was delivered of a lane and what its places hold make its machine. A step is at most one move of one machine.
pub fn lanes_move_once()
    ensures stands { (ks counts : List ℕ) (depth : ℕ) (net : Network) (lane : Lane) (c : ℕ) →
        IsMachine (lane_machine ks (shape_of ks counts depth) net lane c) }
    ensures list { (ks counts : List ℕ) (depth : ℕ) (net : Network) → let s = shape_of ks counts depth in
        AreRadices ks → LanesCut s net → LanesAreCut ks s net }
    ensures step { (ks counts : List ℕ) (depth : ℕ) → AreRadices ks → AreChannels counts →
        EachMovesOne ks (shape_of ks counts depth) }
    ensures elsewhere { (ks counts : List ℕ) (depth : ℕ) (net : Network) → let s = shape_of ks counts depth in
        AreRadices ks → Sound s net → LanesAreNowhereElse ks s net }
{}

/// A packet is cut by the places of its lane. Open past a buffer, it has one active channel, at that buffer's port.
pub fn packets_are_cut()
    ensures list { (ks counts : List ℕ) (depth : ℕ) (net : Network) → let s = shape_of ks counts depth in
        AreRadices ks → AreChannels counts → Sound s net → PacketsHold s net → PacketsAreCut ks s net }
    ensures one { (ks counts : List ℕ) (depth : ℕ) (net : Network) → let s = shape_of ks counts depth in
        AreRadices ks → AreChannels counts → Sound s net → PacketsHold s net → OpenPacketsAreActive ks s net }
{}

/// Whatever steps the empty network of a mesh takes, lanes and packets stay cut by places, and open packets active.
pub fn stays_cut()
    ensures lanes { (ks counts : List ℕ) (depth : ℕ) (steps : List Step) (new : Network)
        → let s = shape_of ks counts depth in
        AreRadices ks → AreChannels counts → StepsLead s (empty s) steps new → LanesAreCut ks s new }
    ensures packets { (ks counts : List ℕ) (depth : ℕ) (steps : List Step) (new : Network)
        → let s = shape_of ks counts depth in
        AreRadices ks → AreChannels counts → StepsLead s (empty s) steps new → PacketsAreCut ks s new }
    ensures one { (ks counts : List ℕ) (depth : ℕ) (steps : List Step) (new : Network)
        → let s = shape_of ks counts depth in
        AreRadices ks → AreChannels counts → StepsLead s (empty s) steps new → OpenPacketsAreActive ks s new }
    ensures elsewhere { (ks counts : List ℕ) (depth : ℕ) (steps : List Step) (new : Network)
        → let s = shape_of ks counts depth in
        AreRadices ks → AreChannels counts → StepsLead s (empty s) steps new → LanesAreNowhereElse ks s new }
{}
