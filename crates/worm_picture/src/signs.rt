//! How things look in a picture: which way they are turned, and the shape, the colour and the mark of a flit.

ghost use Rattle.std.specs.Prelude.{◌≡◌, ◌≤◌, true};
ghost use Rattle.worm_picture.specs.Picture.{lacks};
ghost use Rattle.worm_picture.specs.Signs.{shape_of};

use crate::svg::Frame;

/// How the strip of an input port is turned.
pub fn frame_of(dims: u8, port: u8) -> Frame
    requires { dims ≤ 3 }
{
    if port == 2 * dims {
        return Frame::Plain;
    }
    match port {
        0 => Frame::Plain,
        1 | 5 => Frame::Back,
        2 => Frame::Down,
        3 => Frame::Up,
        _ => Frame::Mirrored,
    }
}

/// How what leaves by an output port is turned: as what it is at the next node.
pub fn exit_of(dims: u8, port: u8) -> Frame
    requires { dims ≤ 3 }
{
    if port == 2 * dims {
        return Frame::Plain;
    }
    match port {
        0 | 4 => Frame::Back,
        1 => Frame::Plain,
        2 => Frame::Up,
        3 => Frame::Down,
        _ => Frame::Mirrored,
    }
}

/// How the slots of a channel look.
pub fn slots_of(is_full: bool) -> &'static str
    ensures plain { lacks 60 result.now ≡ true }
{
    if is_full { "full" } else { "slots" }
}

/// How the way of a flit looks: an opening wants it, and any other flit's packet holds it.
pub fn way_of(index: u8) -> &'static str
    ensures plain { lacks 60 result.now ≡ true }
{
    if index == 0 { "wants" } else { "holds" }
}

/// The shape of a flit: its part in its packet.
pub fn shape_of(index: u8, last: u8) -> &'static str
    ensures plain { lacks 60 result.now ≡ true }
    ensures shape { result.now ≡ shape_of index last }
{
    if index == 0 && last == 0 {
        "single"
    } else if index == 0 {
        "opening"
    } else if index == last {
        "tail"
    } else {
        "body"
    }
}

/// The colours of packets: eyes that do not tell red from green tell these apart (Okabe and Ito).
pub fn colour_of(sign: u32) -> &'static str
    ensures plain { lacks 60 result.now ≡ true }
{
    match sign % 7 {
        0 => "#0072B2",
        1 => "#E69F00",
        2 => "#009E73",
        3 => "#CC79A7",
        4 => "#56B4E9",
        5 => "#D55E00",
        _ => "#F0E442",
    }
}

/// The mark on a packet's flits, which tells packets of one colour apart.
pub fn mark_of(sign: u32) -> &'static str
    ensures plain { lacks 60 result.now ≡ true }
{
    match sign / 7 % 4 {
        0 => "plain",
        1 => "dot",
        2 => "ring",
        _ => "bar",
    }
}
