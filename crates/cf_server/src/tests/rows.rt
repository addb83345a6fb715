//! Rows as the libraries' tests have them: `DONE => COMES`, one in each line of a text. DONE begins with the word of a call,
//! behind which stands what it is passed; COMES is what it tells, or `nothing`.
//!
//! One that isn't so is told as `beats row 31 (line 31): wanted {}, got {"id":9,"ping":{}}`. Those behind it are played, and the
//! test fails at the end.
use std::alloc::Global;
use std::fmt::{Display, Write};
use std::process::Abort;

/// What rows are about.
pub(super) trait Subject {
    /// Does what stands before a row's arrow, and tells what comes of it.
    fn play(&mut self, alloc: Global, done: &str, told: &mut String);
}

/// Tells what a value is shown as. A row is not so if there is no memory for what it tells.
pub(super) fn tell<T: Display + Drop>(told: &mut String, value: T) {
    let _ = told.write(value);
}

/// Tells yes or no.
pub(super) fn tell_whether(told: &mut String, is_so: bool) {
    tell(told, if is_so { "yes" } else { "no" });
}

/// What is called in a row's first word, and what it is passed.
pub(super) fn call_of(done: &str) -> (&str, &str) {
    match done.split_once(' ') {
        Some(parts) => parts,
        None => (done, ""),
    }
}

// What stands before a row's arrow.
fn done_in(row: &str) -> &str {
    match row.split_once(" => ") {
        Some((done, _)) => done,
        None => row,
    }
}

// What was told, or that it was nothing.
fn shown(told: &String) -> &str {
    if told.is_empty() {
        return "nothing";
    }
    told.as_str()
}

/// What is told of a test's rows that aren't so, and at which row it is.
#[derive(Drop)]
struct Faults<'a> {
    name: &'a str,
    line: u32,
    count: u32,
    told: String,
}

impl Faults<'_> {
    // Another text came than the one that is wanted.
    fn differs(&mut self, wanted: &str, got: &str) {
        let (name, line) = (self.name, self.line);
        self.count = self.count.saturating_add(1);
        tell(
            &mut self.told,
            format_args!("{name} row {line} (line {line}): wanted {wanted}, got {got}\n"),
        );
    }

    // What was told has to be what stands behind the row's arrow.
    fn compare(&mut self, row: &str, told: &String) {
        let got = shown(told);
        let Some((_, wanted)) = row.split_once(" => ") else {
            return self.differs("an arrow", got);
        };
        if got != wanted {
            self.differs(wanted, got);
        }
    }

    // Each row was so.
    fn are_none(&self, rt: &impl Abort) {
        let told = self.told.as_str();
        assert!(rt; self.count == 0, "{told}");
        assert!(rt; self.line > 0, "{} has no row", self.name);
    }
}

/// Each row of a test is played, in their order, and is so.
pub(super) fn are_so<S: Subject>(
    rt: &impl Abort,
    alloc: Global,
    name: &str,
    of: &mut S,
    rows: &str,
) {
    let mut faults = Faults {
        name,
        line: 0,
        count: 0,
        told: String::new(alloc),
    };
    for row in rows.lines() {
        faults.line = faults.line.saturating_add(1);
        let mut told = String::new(alloc);
        of.play(alloc, done_in(row), &mut told);
        faults.compare(row, &told);
    }
    faults.are_none(rt);
}
