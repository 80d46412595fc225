//! One line of a report, made from its end: a number's last digit comes first, and is written where it stays.

ghost use Rattle.std.specs.Prelude.{◌≡◌, ◌≤◌, ◌+◌, ◌++◌, [], ◌∷◌, List, ℕ, decimal, drop, length};
ghost use Rattle.std.specs.List.{join_with_byte};
ghost use Rattle.worm_report.specs.Rows.{space, row_text, row_fields, packet_fields, load_fields, place_fields};

use crate::row::Row;
use itoa::{Buffer, write_digits};
use std::marker::Model;
use worm_core::{Held, Place};
use worm_flit::{Flit, Kind, Lane};

/// The room for a line; the longest has three numbers of 39 digits.
pub const ROOM: usize = 256;

/// A line in memory, made from its end to its front.
#[derive(Drop)]
pub struct Line {
    bytes: [u8; ROOM],
    start: usize,
    ghost within: { start ≤ 256 },
}

impl Model for Line {
    ghost Value = { List ℕ };

    ghost view = { λ s. drop s.start s.bytes };
}

impl Line {
    /// An empty line.
    pub fn new() -> Self
        ensures { result ≡ [] }
    {
        Line {
            bytes: [0; ROOM],
            start: ROOM,
        }
    }

    /// Its bytes, the line feed among them.
    pub fn as_bytes(&self) -> &[u8]
        ensures { result.now ≡ self.now }
    {
        &self.bytes[self.start..]
    }

    fn clear(&mut self)
        ensures { self.new ≡ [] }
    {
        self.start = ROOM;
    }

    fn text(&mut self, text: &[u8])
        requires { length text.now + length self.old ≤ 256 }
        ensures text { self.new ≡ text.now ++ self.old }
        ensures longer { length self.new ≡ length text.now + length self.old }
    {
        let start = self.start - text.len();
        self.bytes[start..self.start].copy_from_slice(text);
        self.start = start;
    }

    fn number(&mut self, number: u64)
        requires { 20 + length self.old ≤ 256 }
        ensures number { self.new ≡ decimal number ++ self.old }
        ensures longer { length self.new ≤ 20 + length self.old }
    {
        self.start = write_digits(number, &mut self.bytes, self.start);
    }

    fn wide(&mut self, number: u128)
        requires { 39 + length self.old ≤ 256 }
        ensures number { self.new ≡ decimal number ++ self.old }
        ensures longer { length self.new ≤ 39 + length self.old }
    {
        let mut buffer = Buffer::new();
        self.text(buffer.format(number).as_bytes());
    }

    fn packet(&mut self, flit: Flit)
        requires { 60 + length self.old ≤ 256 }
        ensures line { self.new ≡ space ∷ join_with_byte space (packet_fields flit) ++ self.old }
        ensures longer { length self.new ≤ 60 + length self.old }
    {
        self.number(u64::from(flit.packet));
        self.text(b" packet ");
        self.number(u64::from(flit.lane.class));
        self.text(b" class ");
    }

    fn load(&mut self, flit: Flit)
        requires { 60 + length self.old ≤ 256 }
        ensures line { self.new ≡ space ∷ join_with_byte space (load_fields flit.kind flit) ++ self.old }
        ensures longer { length self.new ≤ 60 + length self.old }
    {
        match flit.kind {
            Kind::Close => self.text(b" close"),
            Kind::Head | Kind::Body | Kind::Tail | Kind::Single => {
                self.number(u64::from(flit.word));
                self.text(b" word ");
                self.number(u64::from(flit.index));
                self.text(b" flit ");
            }
        }
    }

    fn channel(&mut self, node: u8, port: u8, vc: u8)
        requires { 62 + length self.old ≤ 256 }
        ensures line { self.new ≡ decimal node ++ space ∷ (decimal port ++ space ∷ (decimal vc ++ self.old)) }
        ensures longer { length self.new ≤ 62 + length self.old }
    {
        self.number(u64::from(vc));
        self.text(b" ");
        self.number(u64::from(port));
        self.text(b" ");
        self.number(u64::from(node));
    }

    fn place(&mut self, place: Place)
        requires { 80 + length self.old ≤ 256 }
        ensures line { self.new ≡ space ∷ join_with_byte space (place_fields place) ++ self.old }
        ensures longer { length self.new ≤ 80 + length self.old }
    {
        match place {
            Place::Source => self.text(b" source"),
            Place::Buffer { node, port, vc } => {
                self.channel(node, port, vc);
                self.text(b" buffer ");
            }
            Place::Link { node, port, vc } => {
                self.channel(node, port, vc);
                self.text(b" link ");
            }
        }
    }

    fn delivered(&mut self, node: u8, flit: Flit)
        requires { length self.old ≤ 1 }
        ensures { self.new ≡ join_with_byte space (row_fields (Row.Delivered node flit)) ++ self.old }
    {
        self.load(flit);
        self.packet(flit);
        self.number(u64::from(flit.lane.src));
        self.text(b" from ");
        self.number(u64::from(node));
        self.text(b"delivered ");
    }

    fn underway(&mut self, lane: Lane, held: Held)
        requires { length self.old ≤ 1 }
        ensures { self.new ≡ join_with_byte space (row_fields (Row.Underway lane held)) ++ self.old }
    {
        self.place(held.place);
        self.number(u64::from(held.flit.index));
        self.text(b" flit ");
        self.packet(held.flit);
        self.number(u64::from(lane.dst));
        self.text(b" ");
        self.number(u64::from(lane.src));
        self.text(b"underway ");
    }

    fn options(&mut self, turns: u64, workers: u64, drain: u64)
        requires { length self.old ≤ 1 }
        ensures { self.new ≡ join_with_byte space (row_fields (Row.Options turns workers drain)) ++ self.old }
    {
        self.number(drain);
        self.text(b" drain ");
        self.number(workers);
        self.text(b" workers ");
        self.number(turns);
        self.text(b"turns ");
    }

    fn total(&mut self, injected: u128, delivered: u128)
        requires { length self.old ≤ 1 }
        ensures { self.new ≡ join_with_byte space (row_fields (Row.Total injected delivered)) ++ self.old }
    {
        self.wide(injected.saturating_sub(delivered));
        self.text(b" underway ");
        self.wide(delivered);
        self.text(b" delivered ");
        self.wide(injected);
        self.text(b"total injected ");
    }

    fn stopped(&mut self, worker: u64, turn: u64)
        requires { length self.old ≤ 1 }
        ensures { self.new ≡ join_with_byte space (row_fields (Row.Stopped worker turn)) ++ self.old }
    {
        self.number(turn);
        self.text(b" turn ");
        self.number(worker);
        self.text(b"stopped worker ");
    }

    fn not_offered(&mut self, entries: u64)
        requires { length self.old ≤ 1 }
        ensures { self.new ≡ join_with_byte space (row_fields (Row.NotOffered entries)) ++ self.old }
    {
        self.number(entries);
        self.text(b"not offered ");
    }

    fn header(&mut self)
        requires { length self.old ≤ 1 }
        ensures { self.new ≡ join_with_byte space (row_fields Row.Header) ++ self.old }
    {
        self.number(1);
        self.text(b"wormreport ");
    }

    /// Makes the line that a row says.
    #[tactic(auto, unfolding(crate::specs::Rows::row_text))]
    pub fn set(&mut self, row: Row)
        ensures { self.new ≡ row_text row }
    {
        self.clear();
        self.text(b"\n");
        match row {
            Row::Header => self.header(),
            Row::Options {
                turns,
                workers,
                drain,
            } => self.options(turns, workers, drain),
            Row::Stopped { worker, turn } => self.stopped(worker, turn),
            Row::Delivered { node, flit } => self.delivered(node, flit),
            Row::Underway { lane, held } => self.underway(lane, held),
            Row::NotOffered { entries } => self.not_offered(entries),
            Row::Total {
                injected,
                delivered,
            } => self.total(injected, delivered),
        }
    }
}
