//! What a namespace is set up with.

/// What holds for the channels of a namespace.
#[derive(Clone, Copy, PartialEq, Eq, Debug)]
pub struct Settings {
    /// The most publications that a stream holds, 1 to 10,000.
    pub size: usize,
    /// For how many seconds after the last publish a stream holds them, 1 to 2,592,000.
    pub seconds: u64,
    /// Whether clients may publish.
    pub publish: bool,
    /// Whether clients may ask for the history.
    pub history: bool,
    /// Whether it is kept who is there.
    pub presence: bool,
}
