//! A full table of rows, and the same rows in a plain vector: a channel's walk, a session's end, and the removal of all rows.
use cf_subs::{Row, SubTable};
use std::alloc::Global;

/// The same rows twice.
#[derive(Drop)]
pub(crate) struct Rows {
    linked: SubTable,
    plain: Vec<Row>,
}

/// The channel and the session of a number, different for each of 65,536: four to a session, and every 65th on one channel.
fn row_of(number: u32) -> Row {
    Row {
        channel: if number % 65 == 0 {
            0
        } else {
            1 + number % 997
        },
        session: number / 4,
    }
}

impl Rows {
    pub(crate) fn new(alloc: Global) -> Rows {
        Rows {
            linked: SubTable::new(alloc),
            plain: Vec::new(alloc),
        }
    }

    /// `fill` and `fill_plain`, `walk CHANNEL` and `search CHANNEL`, `detach SESSION` and `retain SESSION`, and `remove STEP`.
    /// Says how many rows were put in or went, or the sum of a channel's sessions.
    pub(crate) fn call(&mut self, name: &str, (passed, _, _): (u32, u32, u32)) -> Option<u64> {
        match name {
            "fill" => self.fill(),
            "fill_plain" => self.fill_plain(),
            "walk" => Some(self.walk(passed)),
            "search" => Some(self.search(passed)),
            "detach" => Some(self.linked.detach(passed) as u64),
            "retain" => Some(self.retain(passed) as u64),
            "remove" => Some(self.remove_all(passed)),
            _ => None,
        }
    }

    /// Fills the table with as many rows as it may have.
    fn fill(&mut self) -> Option<u64> {
        for number in 0..65_536 {
            let row = row_of(number);
            if !self.linked.has(row.channel, row.session) {
                self.linked.add(row.channel, row.session).ok()?;
            }
        }
        Some(self.linked.len() as u64)
    }

    fn fill_plain(&mut self) -> Option<u64> {
        for number in 0..65_536 {
            self.plain.push(row_of(number)).ok()?;
        }
        Some(self.plain.len() as u64)
    }

    /// The sum of a channel's sessions, by the linked rows.
    fn walk(&self, channel: u32) -> u64 {
        let mut sum = 0_u64;
        for session in self.linked.walk(channel) {
            sum = sum.saturating_add(u64::from(session));
        }
        sum
    }

    /// The same by a search of all rows.
    fn search(&self, channel: u32) -> u64 {
        let mut sum = 0_u64;
        for row in &self.plain {
            if row.channel == channel {
                sum = sum.saturating_add(u64::from(row.session));
            }
        }
        sum
    }

    /// Takes a session's rows out of the plain ones, and says how many went.
    fn retain(&mut self, session: u32) -> usize {
        let count = self.plain.len();
        self.plain.retain(|row| row.session != session);
        count.saturating_sub(self.plain.len())
    }

    /// Removes all linked rows, each so many places behind the last, and says how many went.
    fn remove_all(&mut self, step: u32) -> u64 {
        let mut gone = 0_u64;
        for turn in 0..65_536_u32 {
            let row = row_of(step.wrapping_mul(turn) % 65_536);
            if self.linked.remove(row.channel, row.session) {
                gone = gone.saturating_add(1);
            }
        }
        gone
    }
}
