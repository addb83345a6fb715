//! Rows: each says what is done and, behind an arrow, what comes of it.
//!
//! A table is a text, and each line of it a row: `DONE => COMES`. DONE begins with the word of a call, behind which stands what
//! it is passed; `; ` parts calls, and what comes of them. COMES is what the answer is shown as, or the words in which the call
//! was refused: `nothing` when nothing comes, and `itself` for what DONE passes. In both, `*COUNT*PIECE*` is that many pieces,
//! with a number from 1,000 on in the place of each `#`, and `␊` is a line feed. An empty line is no row, nor is one that begins
//! with `//`, a remark; an empty line and `# TITLE: SETTING` begin a part, which is played on a subject of its own.
//!
//! A row that isn't so is told as `texts/json/grammar row 31 (line 54): wanted NotJson(3), got NotJson(4)`, the line being the
//! table's; so is one without an arrow, or with a word that is no number. The rows behind it are played, and the test fails at
//! the table's end.
use std::alloc::Global;
use std::fmt::{Display, Write};
use std::process::Abort;

/// Of a text that is longer so many bytes are shown when a row isn't so.
const SHOWN: usize = 400;

/// What stands if a word is no number.
const NO_NUMBER: &str = "no number: ";

/// What rows are about.
pub(crate) trait Subject {
    /// Does what stands before a row's arrow, and tells what comes of it.
    fn play(&mut self, alloc: Global, done: &str, told: &mut Told);
}

/// A text that is told piece by piece, and whether there was memory for all of it.
#[derive(Drop)]
pub(crate) struct Told {
    text: String,
    is_whole: bool,
}

impl Told {
    /// Nothing is told yet.
    pub(crate) fn new(alloc: Global) -> Told {
        Told {
            text: String::new(alloc),
            is_whole: true,
        }
    }

    /// Tells what a value is shown as.
    pub(crate) fn tell<T: Display + Drop>(&mut self, value: T) {
        self.is_whole &= self.text.write(value).is_ok();
    }

    /// Tells what a call answered, or the words in which it was refused.
    pub(crate) fn answer<T: Display + Drop, E: Display + Drop>(&mut self, answer: Result<T, E>) {
        match answer {
            Ok(value) => self.tell(value),
            Err(fault) => self.tell(fault),
        }
    }

    /// Tells yes or no.
    pub(crate) fn is_so(&mut self, is_so: bool) {
        self.tell(if is_so { "yes" } else { "no" });
    }

    /// Parts what is told next from what was told before, if anything was.
    pub(crate) fn part(&mut self, by: &str) {
        if !self.text.is_empty() {
            self.tell(by);
        }
    }

    /// There was no memory for what would be told.
    pub(crate) fn lack(&mut self) {
        self.is_whole = false;
    }

    /// The number that a word spells. That it spells none is told.
    pub(crate) fn number(&mut self, word: &str) -> u32 {
        match word.parse::<u32>() {
            Ok(number) => number,
            Err(_) => {
                self.tell(format_args!("{NO_NUMBER}{word}"));
                0
            }
        }
    }

    /// The same of a number that may be larger.
    pub(crate) fn long_number(&mut self, word: &str) -> u64 {
        match word.parse::<u64>() {
            Ok(number) => number,
            Err(_) => {
                self.tell(format_args!("{NO_NUMBER}{word}"));
                0
            }
        }
    }

    /// What was told, or `nothing`.
    pub(crate) fn shown(&self) -> &str {
        match self.text() {
            Some(text) => front_of(text),
            None => "out of memory",
        }
    }

    /// What was told, if there was memory for it.
    pub(crate) fn text(&self) -> Option<&str> {
        self.is_whole.then_some(self.text.as_str())
    }
}

/// Tells a piece with a number in the place of each `#`.
fn tell_numbered(told: &mut Told, number: u32, piece: &str) {
    let mut parts = piece.split('#');
    told.tell(parts.next().unwrap_or(""));
    for part in parts {
        told.tell(number);
        told.tell(part);
    }
}

/// Tells a text with each `*COUNT*PIECE*` replaced by as many pieces, with a number from 1,000 on in the place of each `#`.
fn tell_in_full(told: &mut Told, text: &str) {
    let mut parts = text.split('*');
    told.tell(parts.next().unwrap_or(""));
    while let Some(count) = parts.next() {
        let piece = parts.next().unwrap_or("");
        for number in 0..told.number(count) {
            tell_numbered(told, number.saturating_add(1000), piece);
        }
        told.tell(parts.next().unwrap_or(""));
    }
}

/// A line with what it repeats written out, and with its line feeds.
pub(crate) fn in_full(alloc: Global, line: &str) -> Told {
    let mut told = Told::new(alloc);
    match line.replace(alloc, '␊', "\n") {
        Ok(line) => tell_in_full(&mut told, line.as_str()),
        Err(_) => told.lack(),
    }
    told
}

/// What stands before the arrow of a row that is written out, and behind it, if it has one.
fn sides_of(row: &Told) -> Option<(&str, &str)> {
    row.text()?.split_once(" => ")
}

/// What stands before the arrow of a row that is written out.
pub(crate) fn done_in(row: &Told) -> &str {
    match sides_of(row) {
        Some((done, _)) => done,
        None => "",
    }
}

/// What is called in a row's first word, and what it is passed.
pub(crate) fn call_of(done: &str) -> (&str, &str) {
    done.split_once(' ').unwrap_or((done, ""))
}

/// What is wanted behind an arrow.
fn wanted_of<'a>(done: &'a str, comes: &'a str) -> &'a str {
    match comes {
        "nothing" => "",
        "itself" => call_of(done).1,
        _ => comes,
    }
}

/// So much of a text as is shown.
fn front_of(text: &str) -> &str {
    if text.is_empty() {
        return "nothing";
    }
    text.get(..SHOWN).unwrap_or(text)
}

/// A table whose rows are played, by its name, and what is told of those that aren't so.
#[derive(Drop)]
pub(crate) struct Table<'a> {
    alloc: Global,
    name: &'a str,
    row: u32,
    line: u32,
    wrong: Told,
}

impl<'a> Table<'a> {
    /// A table of which no line was played.
    pub(crate) fn new(alloc: Global, name: &'a str) -> Table<'a> {
        Table {
            alloc,
            name,
            row: 0,
            line: 0,
            wrong: Told::new(alloc),
        }
    }

    /// Goes on to a line, and answers whether it is a row.
    pub(crate) fn has_row(&mut self, line: &str) -> bool {
        self.line = self.line.saturating_add(1);
        if line.is_empty() || line.starts_with("//") || line.starts_with("# ") {
            return false;
        }
        self.row = self.row.saturating_add(1);
        true
    }

    /// Tells what is wrong with the row at which it is.
    pub(crate) fn is_wrong<T: Display + Drop>(&mut self, what: T) {
        let (name, row, line) = (self.name, self.row, self.line);
        self.wrong.part("\n");
        self.wrong
            .tell(format_args!("{name} row {row} (line {line}): {what}"));
    }

    /// Another text came than the one that is wanted.
    pub(crate) fn differs(&mut self, wanted: &str, got: &str) {
        let (wanted, got) = (front_of(wanted), front_of(got));
        self.is_wrong(format_args!("wanted {wanted}, got {got}"));
    }

    /// What was told has to be what is wanted behind the arrow of a row that is written out.
    pub(crate) fn compare(&mut self, row: &Told, told: &Told) {
        let Some(text) = row.text() else {
            return self.is_wrong("out of memory");
        };
        let Some(got) = told.text() else {
            return self.is_wrong("out of memory");
        };
        let Some((done, comes)) = text.split_once(" => ") else {
            return self.is_wrong("no arrow");
        };
        if text.contains(NO_NUMBER) {
            return self.is_wrong(front_of(text));
        }
        let wanted = wanted_of(done, comes);
        if got != wanted {
            self.differs(wanted, got);
        }
    }

    /// Each row of these lines is played on a subject, in their order.
    pub(crate) fn play<S: Subject>(&mut self, of: &mut S, lines: &str) {
        for line in lines.split('\n') {
            if self.has_row(line) {
                let row = in_full(self.alloc, line);
                let mut told = Told::new(self.alloc);
                of.play(self.alloc, done_in(&row), &mut told);
                self.compare(&row, &told);
            }
        }
    }

    /// Behind a part stands an empty line.
    pub(crate) fn part_ends(&mut self) {
        self.line = self.line.saturating_add(1);
    }

    /// Each row was so.
    pub(crate) fn ends(&self, rt: &impl Abort) {
        let wrong = self.wrong.text().unwrap_or("out of memory");
        assert!(rt; wrong.is_empty(), "{wrong}");
        assert!(rt; self.row > 0, "{} has no row", self.name);
    }
}

/// Each row of a table that is about one subject is so.
pub(crate) fn are_so<S: Subject>(
    rt: &impl Abort,
    alloc: Global,
    name: &str,
    of: &mut S,
    lines: &str,
) {
    let mut table = Table::new(alloc, name);
    table.play(of, lines);
    table.ends(rt);
}
