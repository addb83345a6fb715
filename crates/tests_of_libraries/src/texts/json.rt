//! JSON values found in a text.
mod grammar;
mod vectors;
