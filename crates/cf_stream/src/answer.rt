//! What streams answer.
use cf_protocol::{Position, Publication};

/// What becomes of a publish.
#[derive(Clone, Copy, Debug)]
pub struct Published {
    /// Where the publication stands: that which was made, or that which is repeated.
    pub position: Position,
    /// Whether a publication with this key stood among the last hundred, so that none was made.
    pub repeated: bool,
}

/// What a client that comes back has missed.
#[derive(Drop)]
pub struct Recovery {
    /// Where the stream stands.
    pub position: Position,
    /// Whether everything after the client's position was held, and was at most 300.
    pub recovered: bool,
    /// If recovered, everything after the client's position, in order. Else nothing.
    pub publications: Vec<Publication>,
}

/// Publications that a stream holds, in order.
#[derive(Drop)]
pub struct History {
    /// Where the stream stands.
    pub position: Position,
    pub publications: Vec<Publication>,
}
