//! A queue that no other lies close to.
ghost use Rattle.std.specs.Prelude.{◌≡◌};

/// A queue with unused bytes round it: threads that use other queues do not wait for its cache lines.
#[derive(Drop)]
pub struct Apart<Q> {
    _before: [u64; 8],
    /// The queue.
    pub queue: Q,
    _after: [u64; 8],
}

impl<Q> Apart<Q> {
    /// The queue, with unused bytes round it.
    pub fn new(queue: Q) -> Apart<Q>
        ensures { result.queue ≡ queue }
    {
        Apart {
            _before: [0; 8],
            queue,
            _after: [0; 8],
        }
    }
}
