//! Limits of the protocol, each written once.

/// The most publications that a stream may hold.
pub const LARGEST_SIZE: u64 = 10_000;

/// The longest text of a frame, in bytes.
pub const LONGEST_TEXT: usize = 65_536;

/// The longest name of a channel, in bytes.
pub const LONGEST_CHANNEL: usize = 255;

/// The longest key of a publish, in bytes.
pub const LONGEST_KEY: usize = 64;
