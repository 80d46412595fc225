//! The formats of a network text.

/// The format of a network text: the number in its first line.
#[derive(Clone, Copy, Debug, PartialEq, Eq)]
pub enum Format {
    /// One radix for all dimensions, and one channel for each class.
    One,
    /// A radix for each dimension, and a number of channels for each class.
    Two,
}
