//! The text of a picture, element by element.

ghost use Rattle.std.specs.Prelude.{◌≡◌, ◌++◌, [], OnOk, string_bytes, true};
ghost use Rattle.worm_picture.specs.Picture.{Adds, lacks};

use std::alloc::{AllocError, Global};
use std::fmt::Write;

/// A text that grows.
#[derive(Drop)]
pub struct Svg {
    /// What was written so far.
    pub text: String,
}

/// How a part of a node is turned, so that flits move to the right in it.
#[derive(Clone, Copy, Debug, PartialEq, Eq)]
pub enum Frame {
    /// From the left.
    Plain,
    /// From above.
    Down,
    /// From the right.
    Back,
    /// From below.
    Up,
    /// From the left, above the middle.
    Mirrored,
}

impl Frame {
    fn transform(self) -> &'static str
        ensures plain { lacks 60 result.now ≡ true }
    {
        match self {
            Frame::Plain => "rotate(0)",
            Frame::Down => "rotate(90)",
            Frame::Back => "rotate(180)",
            Frame::Up => "rotate(270)",
            Frame::Mirrored => "scale(1,-1)",
        }
    }
}

impl Svg {
    /// An empty text.
    pub fn new(alloc: Global) -> Svg
        ensures { string_bytes result.text ≡ [] }
    {
        Svg {
            text: String::new(alloc),
        }
    }

    /// What follows has its origin at `x` and `y`, up to `close`.
    pub fn open_at(&mut self, x: u32, y: u32) -> Result<(), AllocError>
        ensures { OnOk result (Adds self.old self.new []) }
    {
        write!(self.text, "<g transform=\"translate({x},{y})\">\n")
    }

    /// What follows begins at height `y` and is `scale` times as large, up to `close`.
    pub fn open_scaled(&mut self, y: u32, scale: u32) -> Result<(), AllocError>
        ensures { OnOk result (Adds self.old self.new []) }
    {
        write!(
            self.text,
            "<g transform=\"translate(0,{y}) scale({scale})\">\n"
        )
    }

    /// What follows is turned, up to `close`.
    pub fn open_frame(&mut self, frame: Frame) -> Result<(), AllocError>
        ensures { OnOk result (Adds self.old self.new []) }
    {
        let transform = frame.transform();
        write!(self.text, "<g transform=\"{transform}\">\n")
    }

    /// The end of what was opened last.
    pub fn close(&mut self) -> Result<(), AllocError>
        ensures { OnOk result (Adds self.old self.new []) }
    {
        self.text.push_str("</g>\n")
    }

    /// These lines as they are.
    pub fn put(&mut self, lines: &str) -> Result<(), AllocError>
        ensures { OnOk result (string_bytes self.new.text ≡ string_bytes self.old.text ++ lines.now) }
    {
        self.text.push_str(lines)
    }
}
