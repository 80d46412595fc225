//! A router under test, and what is done with it and read of it.

ghost use Rattle.std.specs.Prelude.{◌≡◌, ◌<◌, ◌≤◌};

use crate::cases::{are_equal, mesh_of};
use crate::swalloc::are_chosen;
use crate::vcalloc::{are_granted, has_channels};
use std::marker::Model;
use std::process::Abort;
use worm_cases::single;
use worm_flit::{ClassChannels, Flit, are_channels};
use worm_records::InRecord;
use worm_router::{Router, TooMany};
use worm_swalloc::SwGrant;

/// The only flit of a packet of this number for node 1, on the channel.
pub fn flit(packet: u16, vc: u8) -> Flit
    ensures { (result.vc ≡ vc) × (result.lane.dst ≡ 1) }
{
    let mut flit = single(packet, 5);
    flit.vc = vc;
    flit
}

/// A router of one of two nodes. Port 0 or 1 has the neighbour, and port 2 is the terminal.
///
/// A method ends the test where the router answers otherwise than the method's name says.
pub struct Trial<R: Abort + AllocGlobal + Copy> {
    rt: R,
    /// How many channels each port has.
    width: u8,
    router: Router,
}

impl<R: Abort + AllocGlobal + Copy> Model for Trial<R> {
    ghost use Rattle.std.specs.Prelude.{◌≡◌, ◌∷◌, [], sum};
    ghost use Rattle.worm_router.specs.Router.{RouterState};

    ghost Value = { RouterState };

    ghost view = { λ t. t.router };

    ghost invariant = { λ t. (t.router.mesh ≡ 2 ∷ []) × (sum t.router.channels ≡ t.width) };
}

impl<R: Abort + AllocGlobal + Copy> Drop for Trial<R> {
    /// Written out, so that a test that ends calls it: a derived one stands in each test, part by part.
    fn drop(self) {
        let Trial {
            rt: _,
            width: _,
            router: _,
        } = self;
    }
}

impl<R: Abort + AllocGlobal + Copy> Trial<R> {
    /// The router of the node, with so many channels for each class and buffers of this depth.
    pub fn new(rt: R, node: u8, channels: &[u8], depth: u8) -> Trial<R> {
        assert!(rt; node < 2 && are_channels(channels));
        assert!(rt; 1 <= depth && depth <= 16);
        let width = ClassChannels::new(channels).total();
        let made = Router::new(rt.alloc(), &mesh_of(&rt, &[2]), node, channels, depth);
        let router = made.expect(&rt, "a router");
        Trial { rt, width, router }
    }

    /// The flit comes in by the port.
    pub fn accepts(&mut self, port: u8, flit: Flit)
        requires { flit.lane.dst < 2 }
    {
        assert!(self.rt; port < 3 && flit.vc < self.width);
        match self.router.accept(port, flit) {
            Ok(()) => {}
            Err(back) => panic!(self.rt; "{back:?}"),
        }
    }

    /// The buffer is full for the flit, which comes back.
    pub fn refuses(&mut self, port: u8, flit: Flit)
        requires { flit.lane.dst ≡ 1 }
    {
        assert!(self.rt; port < 3 && flit.vc < self.width);
        match self.router.accept(port, flit) {
            Ok(()) => panic!(self.rt; "a full buffer took a flit"),
            Err(back) => are_equal(&self.rt, back, flit),
        }
    }

    /// The channel's packet gets its route.
    pub fn routes(&mut self, port: u8, vc: u8) {
        assert!(self.rt; port < 3 && vc < self.width);
        assert!(self.rt; self.router.route(port, vc));
    }

    /// The channel's packet is granted this channel of the port that it waits for.
    pub fn grants(&mut self, port: u8, vc: u8, out_vc: u8) {
        assert!(self.rt; port < 3 && vc < self.width && out_vc < self.width);
        assert!(self.rt; self.router.grant(port, vc, out_vc));
    }

    /// In one pass each of these input channels is granted this channel, or none.
    pub fn allocates(&mut self, granted: &[(u8, u8, Option<u8>)]) {
        let grants = self.router.allocate();
        are_granted(&self.rt, &grants, granted);
    }

    /// In one pass each of these input ports may send this, or nothing.
    pub fn chooses(&mut self, chosen: &[(u8, Option<SwGrant>)]) {
        let grants = self.router.choose();
        are_chosen(&self.rt, &grants, chosen);
    }

    /// The channel's front may leave by this port, as this flit.
    pub fn is_ready(&self, port: u8, vc: u8, out: u8, flit: Flit) {
        assert!(self.rt; port < 3 && vc < self.width);
        are_equal(&self.rt, self.router.ready(port, vc), Some((out, flit)));
    }

    /// The channel's front leaves.
    pub fn sends(&mut self, port: u8, vc: u8) {
        assert!(self.rt; port < 3 && vc < self.width);
        assert!(self.rt; self.router.ready(port, vc).is_some());
        self.router.sent(port, vc);
    }

    /// The flit that left the channel last, as it left; none before any has.
    pub fn left_last(&self, port: u8, vc: u8, flit: Option<Flit>) {
        assert!(self.rt; port < 3 && vc < self.width);
        are_equal(&self.rt, self.router.last_out(port, vc), flit);
    }

    /// A credit that the channel owes goes out.
    pub fn gives(&mut self, port: u8, vc: u8) {
        assert!(self.rt; port < 3 && vc < self.width);
        assert!(self.rt; self.router.owed_count(port, vc) > 0);
        self.router.gave(port, vc);
    }

    /// A credit that comes back for the output channel has this answer.
    pub fn takes_credit(&mut self, out: u8, vc: u8, answer: Result<(), TooMany>) {
        assert!(self.rt; out < 3 && vc < self.width);
        let given = match self.router.credit(out, vc) {
            Ok(()) => Ok(()),
            Err(TooMany) => Err(TooMany),
        };
        are_equal(&self.rt, given, answer);
    }

    /// The input channel's record is this.
    pub fn has_input(&self, port: u8, vc: u8, record: InRecord) {
        assert!(self.rt; port < 3 && vc < self.width);
        are_equal(&self.rt, self.router.in_record(port, vc), record);
    }

    /// The output channel is held by this input channel.
    pub fn is_held(&self, port: u8, vc: u8, holder: (u8, u8)) {
        assert!(self.rt; port < 3 && vc < self.width);
        are_equal(
            &self.rt,
            self.router.out_record(port, vc).holder,
            Some(holder),
        );
    }

    /// The flit at this place of the channel's buffer; none where no flit is there.
    pub fn has_flit(&self, port: u8, vc: u8, place: usize, flit: Option<Flit>) {
        assert!(self.rt; port < 3 && vc < self.width);
        are_equal(&self.rt, self.router.buffer_at(port, vc, place), flit);
    }

    /// Whether the channel's buffer has room for a flit.
    pub fn has_room(&self, port: u8, vc: u8, room: bool) {
        assert!(self.rt; port < 3 && vc < self.width);
        are_equal(&self.rt, self.router.has_room(port, vc), room);
    }

    /// The channel owes so many credits.
    pub fn owes(&self, port: u8, vc: u8, count: u8) {
        assert!(self.rt; port < 3 && vc < self.width);
        are_equal(&self.rt, self.router.owed_count(port, vc), count);
    }

    /// The lowest channel of the port that owes a credit; none where none does.
    pub fn owes_first(&self, port: u8, vc: Option<u8>) {
        assert!(self.rt; port < 3);
        are_equal(&self.rt, self.router.owed(port), vc);
    }

    /// Whether the router says that a turn would leave it as it is.
    pub fn is_at_rest(&self, rests: bool) {
        are_equal(&self.rt, self.router.is_at_rest(), rests);
    }

    /// These input channels have a flit, and no others.
    pub fn has_occupied(&self, places: &[(u8, u8)]) {
        has_channels(&self.rt, self.router.occupied(), places);
    }

    /// These input channels wait for an output channel, and no others.
    pub fn has_waiting(&self, places: &[(u8, u8)]) {
        has_channels(&self.rt, self.router.waiting(), places);
    }

    /// These input channels hold an output channel, and no others.
    pub fn has_active(&self, places: &[(u8, u8)]) {
        has_channels(&self.rt, self.router.active(), places);
    }

    /// These input channels owe a credit, and no others.
    pub fn has_owing(&self, places: &[(u8, u8)]) {
        has_channels(&self.rt, self.router.owing(), places);
    }
}
