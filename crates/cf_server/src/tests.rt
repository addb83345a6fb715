//! What the parts of a running server do in tests of their own.
mod connection;
mod hand;
mod losses;
mod nodes;
mod peer;
mod rows;
mod script;
mod together;
