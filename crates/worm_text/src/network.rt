//! The text of a network, line by line.

ghost use Rattle.std.specs.Prelude.{◌≡◌, ◌≤◌, ◌<◌, [], length, sum, Ok, IfOk, IfErr};
ghost use Rattle.worm_mesh.specs.Address.{node_count};
ghost use Rattle.worm_text.specs.Reading.{Reads, Gives};
ghost use Rattle.worm_text.specs.Network.{Network, Keeps, text, view, names_of};
ghost use Rattle.worm_text.specs.Stages.{begins, widened, copies_at, radices_at, header_stage, radix_stage, dims_stage};
ghost use Rattle.worm_text.specs.Stages.{dims_first_stage, radices_stage, depth_stage, new_name_at, channels_at};
ghost use Rattle.worm_text.specs.Stages.{one_class, the_end, class_stage, judge};
ghost use Rattle.worm_text.specs.declared.format.Format.{Format};
ghost use Rattle.std.specs.List.{list_any};
ghost use Rattle.std.specs.Str.{bytes_eq};
ghost use Rattle.worm_text.specs.Words.{word_of};
ghost use Rattle.worm_text.specs.Reader.{Answers, network_of, IsFaultLine};
ghost use Rattle.worm_text.specs.StageView.{stage_view};

use crate::fault::{TextFault, Why};
use crate::fields::{Fields, cut_first};
use crate::format::Format;
use crate::key::Key;
use arrayvec::ArrayVec;
use worm_core::{Config, Name};

/// The line that comes next, and what those before it have said.
#[derive(Drop)]
pub enum Stage {
    /// The first line.
    Header,
    /// Line 2 of format 1.
    Radix,
    /// Line 3 of format 1.
    Dims {
        radix: u8,
    },
    /// Line 2 of format 2.
    DimsFirst,
    /// Line 3 of format 2.
    Radices {
        dims: u8,
    },
    /// Line 4.
    Depth {
        format: Format,
        radices: ArrayVec<u8, 3>,
    },
    /// A class, or the line `end`.
    Class {
        format: Format,
        config: Config,
    },
    /// Nothing.
    Ended {
        format: Format,
        config: Config,
    },
}

fn is_among(key: Key, keys: &[Key]) -> bool
    ensures { result ≡ list_any (λ k. bytes_eq (word_of key) (word_of k)) keys.now }
{
    keys.iter().any(|k| key.is(*k))
}

#[tactic(auto, unfolding(crate::specs::Stages::begins))]
fn begin(fields: &mut Fields<'_>, wanted: Key, earlier: &[Key]) -> Result<(), Why>
    ensures { Gives (λ _. fields.new) result (begins wanted earlier.now fields.old) }
{
    let key = fields.key()?;
    if key.is(wanted) {
        Ok(())
    } else if is_among(key, earlier) {
        Err(Why::Repeated)
    } else {
        Err(Why::Missing)
    }
}

#[tactic(auto, unfolding(crate::specs::Stages::header_stage))]
fn header(line: &[u8]) -> Result<Stage, Why>
    ensures { Gives stage_view result (header_stage line.now) }
{
    if line == b"wormnet 1".as_slice() {
        Ok(Stage::Radix)
    } else if line == b"wormnet 2".as_slice() {
        Ok(Stage::DimsFirst)
    } else {
        Err(Why::Header)
    }
}

#[tactic(auto, unfolding(crate::specs::Stages::radix_stage))]
fn radix_line(fields: &mut Fields<'_>) -> Result<Stage, Why>
    ensures { Gives stage_view result (radix_stage fields.old) }
{
    begin(fields, Key::Radix, &[])?;
    let radix = fields.number(2, 16)? as u8;
    fields.end()?;
    Ok(Stage::Dims { radix })
}

#[derive(Drop)]
struct Shape {
    radices: ArrayVec<u8, 3>,
    nodes: u32,
    ghost counted: { nodes ≡ node_count radices.items },
    ghost few: { nodes ≤ 256 },
}

impl Shape {
    fn new() -> Self
        ensures { result.radices.items ≡ [] }
    {
        Shape {
            radices: ArrayVec::new(),
            nodes: 1,
        }
    }

    #[tactic(auto, using(crate::proofs::NodeCounts::nodes_push))]
    fn widen(&mut self, radix: u8) -> Result<(), Why>
        requires { length self.old.radices.items < 3 }
        ensures { Gives (λ _. self.new.radices.items) result (widened self.old.radices.items radix) }
    {
        let nodes = self.nodes * u32::from(radix);
        if nodes > 256 {
            return Err(Why::Range);
        }
        self.radices.push(radix);
        self.nodes = nodes;
        Ok(())
    }
}

fn copies(dims: u8, radix: u8) -> Result<ArrayVec<u8, 3>, Why>
    requires { dims ≤ 3 }
    ensures { Gives (λ v. v.items) result (copies_at dims [] radix) }
{
    let mut shape = Shape::new();
    for _ in 0..dims {
        shape.widen(radix)?;
    }
    Ok(shape.radices)
}

fn radices(fields: &mut Fields<'_>, dims: u8) -> Result<ArrayVec<u8, 3>, Why>
    requires { dims ≤ 3 }
    ensures { Reads (λ v. v.items) result fields.new (radices_at dims [] fields.old) }
{
    let mut shape = Shape::new();
    for _ in 0..dims {
        let radix = fields.number(2, 16)? as u8;
        shape.widen(radix)?;
    }
    Ok(shape.radices)
}

#[tactic(auto, unfolding(crate::specs::Stages::dims_stage))]
fn dims_line(radix: u8, fields: &mut Fields<'_>) -> Result<Stage, Why>
    ensures { Gives stage_view result (dims_stage radix fields.old) }
{
    begin(fields, Key::Dims, &[Key::Radix])?;
    let dims = fields.number(1, 3)? as u8;
    let radices = copies(dims, radix)?;
    fields.end()?;
    Ok(Stage::Depth {
        format: Format::One,
        radices,
    })
}

#[tactic(auto, unfolding(crate::specs::Stages::dims_first_stage))]
fn dims_first_line(fields: &mut Fields<'_>) -> Result<Stage, Why>
    ensures { Gives stage_view result (dims_first_stage fields.old) }
{
    begin(fields, Key::Dims, &[])?;
    let dims = fields.number(1, 3)? as u8;
    fields.end()?;
    Ok(Stage::Radices { dims })
}

#[tactic(auto, unfolding(crate::specs::Stages::radices_stage))]
fn radices_line(dims: u8, fields: &mut Fields<'_>) -> Result<Stage, Why>
    requires { dims ≤ 3 }
    ensures { Gives stage_view result (radices_stage dims fields.old) }
{
    begin(fields, Key::Radix, &[Key::Dims])?;
    let radices = radices(fields, dims)?;
    fields.end()?;
    Ok(Stage::Depth {
        format: Format::Two,
        radices,
    })
}

#[tactic(auto, unfolding(crate::specs::Stages::depth_stage))]
fn depth_line(
    format: Format,
    radices: ArrayVec<u8, 3>,
    fields: &mut Fields<'_>,
) -> Result<Stage, Why>
    ensures { Gives stage_view result (depth_stage format radices.items fields.old) }
{
    begin(fields, Key::Depth, &[Key::Radix, Key::Dims])?;
    let depth = fields.number(1, 16)? as u8;
    fields.end()?;
    Ok(Stage::Class {
        format,
        config: Config {
            radices,
            depth,
            classes: ArrayVec::new(),
            channels: ArrayVec::new(),
        },
    })
}

fn is_taken(name: &Name, classes: &[Name]) -> bool
    ensures { result ≡ list_any (λ c. bytes_eq c name.now.bytes) (names_of classes.now) }
{
    classes.iter().any(|class| class.as_str() == name.as_str())
}

#[tactic(auto, unfolding(crate::specs::Stages::new_name_at))]
fn new_name(fields: &mut Fields<'_>, classes: &[Name]) -> Result<Name, Why>
    ensures { Reads (λ name. name.bytes) result fields.new (new_name_at (names_of classes.now) fields.old) }
{
    let name = fields.name()?;
    if is_taken(&name, classes) {
        return Err(Why::Repeated);
    }
    Ok(name)
}

fn total(channels: &[u8]) -> u32
    requires { length channels.now ≤ 4 }
    ensures { result ≡ sum channels.now }
{
    channels.iter().map(|m| u32::from(*m)).sum()
}

#[tactic(auto, unfolding(crate::specs::Stages::channels_at))]
fn channel_count(format: Format, taken: &[u8], fields: &mut Fields<'_>) -> Result<u8, Why>
    requires { length taken.now ≤ 4 }
    ensures { Reads (λ x. x) result fields.new (channels_at format taken.now fields.old) }
{
    match format {
        Format::One => Ok(1),
        Format::Two => {
            fields.word(b"channels")?;
            let count = fields.number(1, 8)?;
            if total(taken) > 8 - count {
                return Err(Why::Range);
            }
            Ok(count as u8)
        }
    }
}

#[tactic(auto, unfolding(crate::specs::Stages::one_class))]
fn one_class(format: Format, mut config: Config, fields: &mut Fields<'_>) -> Result<Stage, Why>
    requires { length config.channels.items ≡ length config.classes.items }
    ensures { Gives stage_view result (one_class format (view config) fields.old) }
{
    if config.classes.is_full() {
        return Err(Why::TooMany);
    }
    let name = new_name(fields, config.classes.as_slice())?;
    let count = channel_count(format, config.channels.as_slice(), fields)?;
    fields.end()?;
    config.classes.push(name);
    config.channels.push(count);
    Ok(Stage::Class { format, config })
}

#[tactic(auto, unfolding(crate::specs::Stages::the_end))]
fn the_end(format: Format, config: Config, fields: &mut Fields<'_>) -> Result<Stage, Why>
    ensures { Gives stage_view result (the_end format (view config) fields.old) }
{
    if config.classes.is_empty() {
        return Err(Why::Missing);
    }
    fields.end()?;
    Ok(Stage::Ended { format, config })
}

#[tactic(auto, unfolding(crate::specs::Stages::class_stage))]
fn class_line(format: Format, config: Config, fields: &mut Fields<'_>) -> Result<Stage, Why>
    requires { length config.channels.items ≡ length config.classes.items }
    ensures { Gives stage_view result (class_stage format (view config) fields.old) }
{
    match fields.key()? {
        Key::Class => one_class(format, config, fields),
        Key::End => the_end(format, config, fields),
        Key::Radix | Key::Dims | Key::Depth => Err(Why::Repeated),
    }
}

impl Stage {
    ghost use Rattle.worm_text.specs.Stages.{IsSound};

    fn after(self, line: &[u8]) -> Result<Stage, Why>
        requires { IsSound (stage_view self) }
        ensures { Gives stage_view result (judge (stage_view self) line.now) }
    {
        let mut fields = Fields::new(line);
        match self {
            Stage::Header => header(line),
            Stage::Radix => radix_line(&mut fields),
            Stage::Dims { radix } => dims_line(radix, &mut fields),
            Stage::DimsFirst => dims_first_line(&mut fields),
            Stage::Radices { dims } => radices_line(dims, &mut fields),
            Stage::Depth { format, radices } => depth_line(format, radices, &mut fields),
            Stage::Class { format, config } => class_line(format, config, &mut fields),
            Stage::Ended { .. } => Err(Why::AfterEnd),
        }
    }
}

fn read_lines(bytes: &[u8]) -> Result<Config, TextFault>
    ensures { Answers view result (network_of bytes.now) }
{
    let mut stage = Stage::Header;
    let mut line = 1;
    let mut rest = bytes;
    while let Some((front, after)) = cut_first(rest, b'\n') {
        stage = match stage.after(front) {
            Ok(behind) => behind,
            Err(why) => return Err(TextFault { line, why }),
        };
        line += 1;
        rest = after;
    }
    match stage {
        Stage::Ended { config, .. } if rest.is_empty() => Ok(config),
        Stage::Ended { .. } => Err(TextFault {
            line,
            why: Why::AfterEnd,
        }),
        _ => Err(TextFault {
            line,
            why: Why::NoEnd,
        }),
    }
}

/// Reads a network text of either format (Dally and Towles, chapters 5 and 13); it takes no memory. It refuses other
/// bytes with the first fault, a line's fields from the left, and its line (README, the list of WHY).
///
/// `wormnet 1`, `radix 4`, `dims 2`, `depth 2`, `class data` and `end`, a line each, are a network of 16 nodes.
pub fn read_network(bytes: &[u8]) -> Result<Config, TextFault>
    ensures found { IfOk result (λ config. (f : Format) × Keeps f (view config) × (bytes.now ≡ text f (view config))) }
    ensures only { (f : Format) (n : Network) → Keeps f n → bytes.now ≡ text f n → Answers view result (Ok n) }
    // The line of a fault is one more than the longest run of finished lines with which an accepted text begins.
    ensures line { IfErr result (λ fault. IsFaultLine bytes.now fault.line) }
    ensures exact { Answers view result (network_of bytes.now) }
{
    read_lines(bytes)
}
