//! What a node or a client knows.
mod client;
mod fair;
mod presence;
mod queue;
mod recovery;
mod refusals;
mod stream;
mod streams;
mod subs;
