ghost use Rattle.std.specs.Prelude.{◌≡◌, None, if◌then◌else◌, replicate};
ghost use Rattle.worm_router.specs.Busy.{AreReady};

use worm_flit::SmallSet;
use worm_swalloc::ReadyOuts;
use worm_vcalloc::ChannelSet;

/// What input channels hold, lack and owe, as sets, so that a turn skips those that can do nothing.
#[derive(Drop)]
pub struct BusyChannels {
    /// The output port of each channel that holds an output channel.
    pub outs: ReadyOuts,
    /// Those of them whose output channel has no credit.
    pub no_credit: ChannelSet,
    /// Those that owe all that they may.
    pub owes_all: ChannelSet,
    /// Those that have a flit.
    pub occupied: ChannelSet,
    /// Those that owe a credit.
    pub owing: ChannelSet,
    /// The classes whose injection buffer is known to be full, so that a turn tries none of their flits.
    pub full: SmallSet,
}

impl BusyChannels {
    /// No channel has anything to do.
    pub fn new() -> BusyChannels
        ensures { result ≡ record {
          outs = replicate 7 (replicate 8 None);
          no_credit = 0;
          owes_all = 0;
          occupied = 0;
          owing = 0;
          full = 0;
        } }
    {
        BusyChannels {
            outs: ReadyOuts::new(),
            no_credit: ChannelSet::new(),
            owes_all: ChannelSet::new(),
            occupied: ChannelSet::new(),
            owing: ChannelSet::new(),
            full: SmallSet::new(),
        }
    }

    /// Those that may send: they have a flit, hold an output channel with a credit and may owe one more.
    pub fn ready(&self) -> ChannelSet
        ensures { AreReady self.now result }
    {
        self.outs
            .keys()
            .intersection(&self.occupied)
            .difference(&self.no_credit)
            .difference(&self.owes_all)
    }

    /// A flit has left. Where it had been `fed`, as those at the terminal are, an injection buffer has room now, and
    /// none is known to be full.
    pub fn forget_full(&mut self, fed: bool)
        ensures { self.new ≡ record self.old { full = if fed then 0 else self.old.full } }
    {
        // Both ways out are worked out: a branch would be hard to guess.
        self.full = if fed { SmallSet::new() } else { self.full };
    }
}
