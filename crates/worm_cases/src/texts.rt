//! The texts of small networks and of their traffic.

/// Two nodes, one class with one channel.
pub const TWO_NODES: &[u8] = b"wormnet 1\nradix 2\ndims 1\ndepth 2\nclass data\nend\n";

/// A packet of two words, from node 0 to node 1 of two.
pub const TWO_WORDS: &[u8] = b"wormtraffic 1\nsend 0 0 1 data 17 18\nend\n";

/// Two nodes and the packet of two words, in one input.
pub const TWO_NODES_AND_WORDS: &[u8] =
    b"wormnet 1\nradix 2\ndims 1\ndepth 2\nclass data\nend\nwormtraffic 1\nsend 0 0 1 data 17 18\nend\n";

/// Two nodes, one class with two channels.
pub const TWO_CHANNELS: &[u8] =
    b"wormnet 2\ndims 1\nradix 2\ndepth 2\nclass data channels 2\nend\n";

/// Three nodes by two.
pub const THREE_BY_TWO: &[u8] =
    b"wormnet 2\ndims 2\nradix 3 2\ndepth 2\nclass data channels 1\nend\n";

/// Four nodes by four.
pub const SIXTEEN_NODES: &[u8] = b"wormnet 1\nradix 4\ndims 2\ndepth 2\nclass data\nend\n";

/// A word, and then the mark that closes its lane.
pub const WORD_AND_MARK: &[u8] = b"wormtraffic 1\nsend 0 0 1 data 5\nclose 0 0 1 data\nend\n";
