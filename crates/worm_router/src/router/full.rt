//! The classes whose injection buffer is known to be full, so that a turn tries none of their flits.

ghost use Rattle.std.specs.Prelude.{ℕ, ◌≡◌, ◌<◌, true, false};
ghost use Rattle.worm_flit.specs.SmallSet.{has as has_small};
ghost use Rattle.worm_router.specs.Busy.{IsFull};

use crate::router::Router;
use worm_flit::SmallSet;

impl Router {
    /// Those of the classes whose injection buffer is not known to be full. One-sided: it may be full all the same.
    pub fn unfilled(&self, classes: SmallSet) -> SmallSet
        ensures within { (class : ℕ) → class < 8 → has_small result class ≡ true → has_small classes class ≡ true }
        ensures full { (class : ℕ) → class < 8 → has_small classes class ≡ true → has_small result class ≡ false
            → IsFull self.now class }
    {
        classes.difference(&self.busy.full)
    }

    /// Keeps it that the injection buffer of the class is full, until a flit leaves it.
    pub fn keep_full(&mut self, class: u8)
        requires { IsFull self.old class }
        ensures { self.new ≡ self.old }
    {
        self.busy.full.put(class, true);
    }
}
