//! What a network is, and what its nine steps keep, in whatever order (Dally and Towles, chapters 12, 13 and 16).

ghost use Rattle.std.specs.Prelude.{◌≡◌, ℕ, List, Some, ◌++◌};
ghost use Rattle.std.specs.Option.{option_to_list};
ghost use Rattle.worm_flit.specs.Stamps.{on_channel};
ghost use Rattle.worm_flit.specs.Worms.{IsWorm, latest_on};
ghost use Rattle.worm_theory.specs.Shape.{Shape, IsMesh};
ghost use Rattle.worm_theory.specs.Network.{Network};
ghost use Rattle.worm_theory.specs.Steps.{Step, IsPort, StepsLead, EachStepKeeps, AnyStepsKeep, empty};
ghost use Rattle.worm_theory.specs.Sound.{Sound, BuffersFit, OthersIdle, OnesClosed, LinksFit, unfed_on};
ghost use Rattle.worm_theory.specs.Growth.{SinksGrow, SourcesGrow};
ghost use Rattle.worm_theory.specs.WormFormed.{Joint, ComesNext, RecordFits, EndsAt, held_last, awaited};
ghost use Rattle.worm_theory.specs.Cut.{LanesCut, StampsDiffer, EachOnce};
ghost use Rattle.worm_theory.specs.Marks.{EndsAccepted, EndsDelivered, EndsForGood};
ghost use Rattle.worm_theory.specs.PacketCut.{PacketsHold, PacketsWhole};
ghost use Rattle.worm_theory.specs.ChannelCut.{ChannelsCut};
ghost use Rattle.worm_theory.specs.OpenPast.{OpenOnce, WithinIsOpen, OpenRecords, NeverTwo, FreeRecords, ClassesMatch};

/// Steps lead from a network to one network alone, and lists of steps one after another are their joined list.
pub fn steps_lead_to_one()
    ensures one { (s : Shape) (steps : List Step) (old new other : Network) → StepsLead s old steps new
        → StepsLead s old steps other → new ≡ other }
    ensures joined { (s : Shape) (first then : List Step) (old mid new : Network) → StepsLead s old first mid
        → StepsLead s mid then new → StepsLead s old (first ++ then) new }
{}

/// The empty network is sound, cut for each lane and each packet, idle and open.
pub fn empty_is_sound()
    ensures sound { (s : Shape) → Sound s (empty s) }
    ensures lanes { (s : Shape) → IsMesh s → LanesCut s (empty s) }
    ensures packets { (s : Shape) → IsMesh s → PacketsHold s (empty s) }
    ensures others { (s : Shape) → OthersIdle s (empty s) }
    ensures ones { (s : Shape) → OnesClosed s (empty s) }
{}

/// A sound network stays sound, whatever steps are taken.
pub fn stays_sound()
    ensures step { (s : Shape) → IsMesh s → EachStepKeeps s (Sound s) }
    ensures steps { (s : Shape) → IsMesh s → AnyStepsKeep s (Sound s) }
{}

/// No buffer of a sound network holds more than its depth, counted with its channel's flits on the link.
pub fn buffers_fit()
    ensures buffers { (s : Shape) (net : Network) → Sound s net → BuffersFit s net }
    ensures links { (s : Shape) (net : Network) → Sound s net → LinksFit s net }
{}

/// The lane cut: of a lane whose class owns one channel, the flits delivered, followed by those under way from the
/// sink back, are the flits injected, in order, each once.
pub fn lanes_stay_cut()
    ensures step { (s : Shape) → IsMesh s → EachStepKeeps s (λ net. Sound s net × LanesCut s net) }
    ensures steps { (s : Shape) → IsMesh s → AnyStepsKeep s (λ net. Sound s net × LanesCut s net) }
    ensures stamps { (s : Shape) (net : Network) → Sound s net → StampsDiffer net }
    ensures once { (s : Shape) (net : Network) → Sound s net → LanesCut s net → EachOnce s net }
{}

/// The packet cut: of a packet of any class, the flits delivered, followed by those at each place from the sink back,
/// a place read as its class's channels there, are the packet's flits, in order, each once.
pub fn packets_stay_cut()
    ensures step { (s : Shape) → IsMesh s → EachStepKeeps s (λ net. Sound s net × PacketsHold s net) }
    ensures steps { (s : Shape) → IsMesh s → AnyStepsKeep s (λ net. Sound s net × PacketsHold s net) }
    ensures cut { (s : Shape) (net : Network) → IsMesh s → Sound s net → PacketsHold s net → ChannelsCut s net }
    ensures whole { (s : Shape) (net : Network) → Sound s net → PacketsWhole net }
{}

/// After a lane's close mark nothing of it is accepted, delivered or under way, nor ever arrives.
pub fn marks_come_last()
    ensures accepted { (s : Shape) (net : Network) → Sound s net → EndsAccepted net }
    ensures delivered { (s : Shape) (net : Network) → Sound s net → LanesCut s net → EndsDelivered s net }
    ensures for_good { (s : Shape) (steps : List Step) (old new : Network) → IsMesh s → Sound s old → LanesCut s old
        → StepsLead s old steps new → EndsForGood s old new }
    ensures step { (s : Shape) → EachStepKeeps s (OnesClosed s) }
    ensures steps { (s : Shape) → AnyStepsKeep s (OnesClosed s) }
{}

/// What a sink has and what a source accepted stays, and only grows.
pub fn ends_only_grow()
    ensures sinks { (s : Shape) (steps : List Step) (old new : Network) → IsMesh s → StepsLead s old steps new
        → SinksGrow s old new }
    ensures sources { (s : Shape) (steps : List Step) (old new : Network) → StepsLead s old steps new
        → SourcesGrow old new }
{}

/// The joint worm: what left a buffer last, the buffer and its link's flits of the channel are one worm.
pub fn links_hold_worms()
    ensures link { (s : Shape) (net : Network) → Sound s net → (y o x v : ℕ) → s.neighbour y o ≡ Some x
        → Joint s net y o x v }
    ensures sink { (s : Shape) (net : Network) → Sound s net → (x v : ℕ)
        → IsWorm (on_channel v (net.out x s.terminal)) }
    ensures sink_end { (s : Shape) (net : Network) → Sound s net → (x v : ℕ)
        → EndsAt (latest_on v (net.out x s.terminal)) (held_last net x (net.holder x s.terminal v)) }
    ensures source { (s : Shape) (net : Network) → Sound s net → (x v : ℕ)
        → IsWorm (option_to_list (net.last_out x s.terminal v) ++ (net.buffer x s.terminal v ++ unfed_on s net x v)) }
    ensures next { (s : Shape) (net : Network) → IsMesh s → Sound s net → (x p v : ℕ) → IsPort s x p
        → ComesNext (net.last_out x p v) (awaited s net x p v) }
{}

/// Record agreement, read from each channel: a record fits what left its buffer last and what its buffer holds.
pub fn records_fit_their_channels()
    ensures record { (s : Shape) (net : Network) → Sound s net → (x p v : ℕ)
        → RecordFits s x (net.in_record x p v) (net.last_out x p v) (net.buffer x p v) }
    ensures classes { (s : Shape) (net : Network) → Sound s net → ClassesMatch s net }
{}

/// Record agreement, read from the network: where a packet is open past a buffer, exactly one channel is within it.
pub fn records_fit_open_packets()
    ensures one { (s : Shape) (net : Network) → IsMesh s → Sound s net → PacketsHold s net → OpenOnce s net }
    ensures within { (s : Shape) (net : Network) → IsMesh s → Sound s net → PacketsHold s net → WithinIsOpen s net }
    ensures opened { (s : Shape) (net : Network) → IsMesh s → Sound s net → PacketsHold s net → OpenRecords s net }
    ensures free { (s : Shape) (net : Network) → IsMesh s → Sound s net → PacketsHold s net → FreeRecords s net }
    ensures never_two { (s : Shape) (net : Network) → IsMesh s → Sound s net → PacketsHold s net → NeverTwo s net }
{}

/// The channels at the terminal that are not their class's first stay empty and idle.
pub fn others_stay_idle()
    ensures step { (s : Shape) → IsMesh s → EachStepKeeps s (OthersIdle s) }
    ensures steps { (s : Shape) → IsMesh s → AnyStepsKeep s (OthersIdle s) }
{}
