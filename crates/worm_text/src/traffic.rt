//! The text of the traffic, line by line.

ghost use Rattle.std.specs.Prelude.{◌≡◌, ◌≤◌, [], length, position, OnOk, IfOk, IfErr, Ok, ◌⊎◌, List, ◌||◌, All, false};
ghost use Rattle.worm_mesh.specs.Address.{node_count};
ghost use Rattle.worm_text.specs.TrafficText.{AreEntries, traffic_text};
ghost use Rattle.worm_text.specs.ScriptView.{said_of};
ghost use Rattle.std.specs.Option.{option_map};
ghost use Rattle.std.specs.Str.{bytes_eq};
ghost use Rattle.std.specs.BTreeSet.{contains};
ghost use Rattle.worm_text.specs.Reading.{Reads, Gives};
ghost use Rattle.worm_text.specs.Network.{view, names_of, Keeps};
ghost use Rattle.worm_text.specs.declared.format.Format.{Format};
ghost use Rattle.worm_text.specs.Traffic.{Said, class_at, turn_at, lane_at, words_at, send_at, close_at, entry_at};
ghost use Rattle.worm_text.specs.Traffic.{entry_view, same_lane, lane_cmp, closes, read_entries, traffic_of};
ghost use Rattle.worm_text.specs.Asked.{said_by};
ghost use Rattle.worm_text.specs.TrafficFaults.{AnswersOrFull, RanOut, IsEntryLine, IsEntryPiece, IsTrafficFaultLine};
ghost use Rattle.worm_text.specs.Lines.{cut, space, newline};

use crate::fault::{TextFault, Why};
use crate::fields::{Fields, cut_first};
use arrayvec::ArrayVec;
use std::alloc::{AllocError, Global};
use std::collections::BTreeSet;
use worm_core::{Act, Config, Entry, Name, Script};
use worm_flit::{Lane, Packet};

const MOST_ENTRIES: usize = 10_000;

fn place_of(name: &[u8], classes: &[Name]) -> Option<usize>
    ensures { result ≡ position (λ c. bytes_eq c.bytes name.now) classes.now }
{
    classes
        .iter()
        .position(|class| class.as_str().as_bytes() == name)
}

#[tactic(auto, unfolding(crate::specs::Traffic::turn_at))]
fn turn(last: u32, fields: &mut Fields<'_>) -> Result<u32, Why>
    ensures { Reads (λ x. x) result fields.new (turn_at last fields.old) }
{
    let turn = fields.number(0, 1_000_000)?;
    if turn < last {
        return Err(Why::OrderOfTurns);
    }
    Ok(turn)
}

fn read_words(fields: &mut Fields<'_>, words: &mut ArrayVec<u32, 32>) -> Result<(), Why>
    requires { words.old.items ≡ [] }
    ensures read { Gives (λ done. words.new.items) result (words_at [] fields.old) }
    ensures some { OnOk result (1 ≤ length words.new.items) }
{
    while !fields.is_over() {
        if words.is_full() {
            return Err(Why::TooMany);
        }
        words.push(fields.number(0, u32::MAX)?);
    }
    if words.is_empty() {
        return Err(Why::Missing);
    }
    Ok(())
}

#[derive(Drop)]
struct ClosedLanes {
    lanes: BTreeSet<Lane>,
}

impl ClosedLanes {
    fn new(alloc: Global) -> Self
        ensures { (lane : Lane) → contains lane_cmp result.lanes lane ≡ false }
    {
        ClosedLanes {
            lanes: BTreeSet::new(alloc),
        }
    }

    fn contains(&self, lane: Lane) -> bool
        ensures { result ≡ contains lane_cmp self.now.lanes lane }
    {
        self.lanes.contains(&lane)
    }

    fn add(&mut self, lane: Lane) -> Result<(), AllocError>
        ensures added { OnOk result ((other : Lane)
            → contains lane_cmp self.new.lanes other
            ≡ (same_lane other lane || contains lane_cmp self.old.lanes other)) }
    {
        self.lanes.insert(lane)?;
        Ok(())
    }

    fn note(&mut self, entry: &Entry) -> Result<(), AllocError>
        ensures noted { OnOk result ((other : Lane)
            → contains lane_cmp self.new.lanes other
            ≡ (closes other (entry_view entry.now) || contains lane_cmp self.old.lanes other)) }
    {
        match &entry.act {
            Act::Offer(_) => Ok(()),
            Act::Close(lane) => self.add(*lane),
        }
    }
}

fn class(classes: &[Name], fields: &mut Fields<'_>) -> Result<u8, Why>
    requires { length classes.now ≤ 4 }
    ensures { Reads (λ x. x) result fields.new (class_at (names_of classes.now) fields.old) }
{
    let Some(name) = fields.next() else {
        return Err(Why::Missing);
    };
    match place_of(name, classes) {
        Some(at) => Ok(at as u8),
        None => Err(Why::Name),
    }
}

/// An entry but its words, which stand beside it: a packet is made once, where it stays. With none the lane closes.
#[derive(Clone, Copy)]
struct Asked {
    turn: u32,
    lane: Lane,
}

impl Asked {
    fn entry(self, words: &[u32]) -> Entry
        requires { length words.now ≤ 32 }
        ensures { entry_view result ≡ said_by self words.now }
    {
        let act = match Packet::new(self.lane, words) {
            Ok(packet) => Act::Offer(packet),
            Err(_) => Act::Close(self.lane),
        };
        Entry {
            turn: self.turn,
            act,
        }
    }
}

/// What a reader knows before a line: how many entries there were, the turn of the last, and the lanes they closed.
#[derive(Clone, Copy)]
struct Standing<'a> {
    config: &'a Config,
    nodes: u32,
    count: usize,
    last: u32,
    closed: &'a ClosedLanes,
    ghost counted: { nodes ≡ node_count config.now.radices.items },
    ghost some: { 1 ≤ nodes },
    ghost few: { nodes ≤ 256 },
}

impl<'a> Standing<'a> {
    #[tactic(auto, unfolding(crate::specs::Traffic::lane_at))]
    fn lane(&self, fields: &mut Fields<'_>) -> Result<Lane, Why>
        ensures { Reads (λ x. x) result fields.new (lane_at (view self.now.config.now) fields.old) }
    {
        let src = fields.number(0, self.nodes - 1)? as u8;
        let dst = fields.number(0, self.nodes - 1)? as u8;
        let class = class(self.config.classes.as_slice(), fields)?;
        Ok(Lane { src, dst, class })
    }

    #[tactic(auto, unfolding(crate::specs::Traffic::send_at))]
    fn send(&self, fields: &mut Fields<'_>, words: &mut ArrayVec<u32, 32>) -> Result<Asked, Why>
        requires { words.old.items ≡ [] }
        ensures { Gives (λ asked. said_by asked words.new.items) result (send_at (view self.now.config.now)
            self.now.last (contains lane_cmp self.now.closed.now.lanes) fields.old) }
    {
        let turn = turn(self.last, fields)?;
        let lane = self.lane(fields)?;
        if self.closed.contains(lane) {
            return Err(Why::LaneClosed);
        }
        read_words(fields, words)?;
        Ok(Asked { turn, lane })
    }

    #[tactic(auto, unfolding(crate::specs::Traffic::close_at))]
    fn close(&self, fields: &mut Fields<'_>) -> Result<Asked, Why>
        ensures { Gives (λ asked. said_by asked []) result (close_at (view self.now.config.now) self.now.last
            (contains lane_cmp self.now.closed.now.lanes) fields.old) }
    {
        let turn = turn(self.last, fields)?;
        let lane = self.lane(fields)?;
        let channels = self.config.channels.as_slice();
        if channels.get(lane.class as usize).copied() != Some(1) {
            return Err(Why::ManyChannels);
        }
        if self.closed.contains(lane) {
            return Err(Why::LaneClosed);
        }
        fields.end()?;
        Ok(Asked { turn, lane })
    }

    #[tactic(auto, unfolding(crate::specs::Traffic::entry_at))]
    fn entry(&self, line: &[u8], words: &mut ArrayVec<u32, 32>) -> Result<Option<Asked>, Why>
        requires { words.old.items ≡ [] }
        ensures { Gives (option_map (λ asked. said_by asked words.new.items)) result (entry_at
            (view self.now.config.now) self.now.count self.now.last (contains lane_cmp self.now.closed.now.lanes)
            (cut space line.now)) }
    {
        let mut fields = Fields::new(line);
        let Some(word) = fields.next() else {
            return Err(Why::Missing);
        };
        if word == b"send".as_slice() {
            if self.count >= MOST_ENTRIES {
                return Err(Why::TooMany);
            }
            Ok(Some(self.send(&mut fields, words)?))
        } else if word == b"close".as_slice() {
            if self.count >= MOST_ENTRIES {
                return Err(Why::TooMany);
            }
            Ok(Some(self.close(&mut fields)?))
        } else if word == b"end".as_slice() {
            fields.end()?;
            Ok(None)
        } else {
            Err(Why::UnknownWord)
        }
    }
}

fn node_count(radices: &[u8]) -> u32
    requires each { All (λ k. 1 ≤ k) radices.now }
    requires few { node_count radices.now ≤ 256 }
    ensures { result ≡ node_count radices.now }
{
    let mut nodes = 1;
    for radix in radices {
        nodes *= u32::from(*radix);
    }
    nodes
}

fn read_entries(
    alloc: Global,
    rest: &[u8],
    config: &Config,
    nodes: u32,
) -> Result<Script, TextFault>
    requires counted { nodes ≡ node_count config.now.radices.items }
    requires some { 1 ≤ nodes }
    requires few { nodes ≤ 256 }
    ensures { AnswersOrFull said_of (IsEntryPiece (view config.now) (cut newline rest.now)) result
        (read_entries (view config.now) [] 2 (cut newline rest.now)) }
{
    let mut script = Script::empty(alloc);
    let mut closed = ClosedLanes::new(alloc);
    let mut last = 0;
    let mut line = 2;
    let mut rest = rest;
    while let Some((front, after)) = cut_first(rest, b'\n') {
        let standing = Standing {
            config,
            nodes,
            count: script.len(),
            last,
            closed: &closed,
        };
        let mut words = ArrayVec::new();
        match standing.entry(front, &mut words) {
            Err(why) => return Err(TextFault { line, why }),
            Ok(None) => {
                return if after.is_empty() {
                    Ok(script)
                } else {
                    Err(TextFault {
                        line: line + 1,
                        why: Why::AfterEnd,
                    })
                };
            }
            Ok(Some(asked)) => {
                let entry = asked.entry(words.as_slice());
                last = entry.turn;
                if closed.note(&entry).is_err() || script.push(entry).is_err() {
                    let why = Why::NoMemory;
                    return Err(TextFault { line, why });
                }
            }
        }
        line += 1;
        rest = after;
    }
    let why = Why::NoEnd;
    Err(TextFault { line, why })
}

fn read_script(alloc: Global, bytes: &[u8], config: &Config) -> Result<Script, TextFault>
    requires { (f : Format) × Keeps f (view config.now) }
    ensures { AnswersOrFull said_of (IsEntryLine (view config.now) bytes.now) result
        (traffic_of (view config.now) bytes.now) }
{
    let nodes = node_count(config.radices.as_slice());
    let Some((header, rest)) = cut_first(bytes, b'\n') else {
        return Err(TextFault {
            line: 1,
            why: Why::NoEnd,
        });
    };
    if header != b"wormtraffic 1".as_slice() {
        return Err(TextFault {
            line: 1,
            why: Why::Header,
        });
    }
    read_entries(alloc, rest, config, nodes)
}

/// Reads a traffic text for a network that a text says. `NoMemory` at the line of an entry that finds no room. It
/// refuses other bytes with the first fault, a line's fields from the left, and its line (README, the list of WHY).
///
/// `wormtraffic 1`, `send 0 0 5 data 17 18` and `end`, a line each, offer a packet of two words to node 0 in turn 0.
pub fn read_traffic(alloc: Global, bytes: &[u8], config: &Config) -> Result<Script, TextFault>
    requires { (f : Format) × Keeps f (view config.now) }
    ensures found { IfOk result (λ script. AreEntries (view config.now) [] (said_of script)
        × (bytes.now ≡ traffic_text (view config.now) (said_of script))) }
    ensures only { (entries : List Said) → AreEntries (view config.now) [] entries
        → bytes.now ≡ traffic_text (view config.now) entries
        → AnswersOrFull said_of (IsEntryLine (view config.now) bytes.now) result (Ok entries) }
    // A fault's line is one more than the longest run of finished lines with which an accepted text begins.
    ensures line { IfErr result (λ fault. RanOut (IsEntryLine (view config.now) bytes.now) fault
        ⊎ IsTrafficFaultLine (view config.now) bytes.now fault.line) }
    ensures exact { AnswersOrFull said_of (IsEntryLine (view config.now) bytes.now) result
        (traffic_of (view config.now) bytes.now) }
{
    read_script(alloc, bytes, config)
}
