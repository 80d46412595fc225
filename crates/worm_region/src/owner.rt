//! Which nodes of a network a worker owns.

ghost use Rattle.std.specs.Prelude.{◌≡◌};
ghost use Rattle.worm_region.specs.Owned.{sole};

/// A worker among several, who owns the nodes whose number modulo the number of workers is the worker's own.
#[derive(Clone, Copy, Debug, PartialEq, Eq)]
pub struct Owner {
    /// The worker's number, 0 to workers - 1.
    pub worker: u16,
    /// How many workers there are, 1 to 16.
    pub workers: u16,
}

impl Owner {
    /// One worker, who owns all nodes.
    pub fn sole() -> Owner
        ensures { result ≡ sole }
    {
        Owner {
            worker: 0,
            workers: 1,
        }
    }
}
