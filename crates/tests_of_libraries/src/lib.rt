//! Tests of the libraries: nothing stands here but tests.
#![tactic(auto)]

#[cfg(test)]
mod publications;
#[cfg(test)]
mod rows;
#[cfg(test)]
mod sessions;
#[cfg(test)]
mod state;
#[cfg(test)]
mod texts;
#[cfg(test)]
mod threads;
