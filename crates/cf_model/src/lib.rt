//! What streams, sessions and clients are, in numbers and notes: definitions alone, which theory and code both stand on.
#![tactic(auto)]
