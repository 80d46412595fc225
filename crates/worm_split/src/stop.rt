//! Why a worker takes no further turn.

ghost use Rattle.std.specs.Prelude.{◌≡◌, Some};
ghost use Rattle.worm_region.specs.declared.fault.StepFault.TheVariants.{NoSuchPlace};
ghost use Rattle.worm_split.specs.Stops.{fault_behind};

use worm_core::{OfferFault, StepFault};

/// Why a worker took no further turn.
#[derive(Clone, Copy, Debug, PartialEq, Eq)]
pub enum StopWhy {
    /// Its gate answered false.
    Gate,
    /// There was no memory for an accepted or a delivered flit.
    NoMemory,
    /// A source refused an entry of the script.
    Refused(OfferFault),
}

pub(crate) fn stopped_by(fault: StepFault) -> StopWhy
    requires { fault ≡ NoSuchPlace → ⊥ }
    ensures { fault_behind result ≡ Some fault }
{
    match fault {
        StepFault::Refused(why) => StopWhy::Refused(why),
        StepFault::NoMemory => StopWhy::NoMemory,
        StepFault::NoSuchPlace => unreachable!(),
    }
}
