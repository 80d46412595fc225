//! Steps in short.

use worm_core::Step;

/// The source's next flit of the class goes into the injection buffer.
pub fn feed(node: u8, class: u8) -> Step {
    Step::Feed { node, class }
}

/// The opening flit at the buffer's front finds its output port.
pub fn route(node: u8, port: u8, vc: u8) -> Step {
    Step::Route { node, port, vc }
}

/// The packet that waits there gets this channel of its output port.
pub fn grant(node: u8, port: u8, vc: u8, out_vc: u8) -> Step {
    Step::Grant {
        node,
        port,
        vc,
        out_vc,
    }
}

/// The flit at the buffer's front leaves.
pub fn send(node: u8, port: u8, vc: u8) -> Step {
    Step::Send { node, port, vc }
}

/// The front flit of the link into the port goes into its buffer.
pub fn take(node: u8, port: u8) -> Step {
    Step::Take { node, port }
}
