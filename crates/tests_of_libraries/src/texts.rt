//! Texts that are read and written.
mod json;
mod protocol;
