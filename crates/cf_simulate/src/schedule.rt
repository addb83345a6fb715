//! A schedule, read from its lines.
ghost use Rattle.std.specs.Prelude.{◌≡◌, ◌∷◌, ◌++◌, ◌+◌, [], ℕ, List, length, map, IfOk, IfErr, IfSome, OnOk};
ghost use Rattle.cf_schedule.specs.ScheduleLine.{Says};
ghost use Rattle.cf_schedule.specs.Seen.{seen};
ghost use Rattle.cf_simulate.specs.ScheduleText.{lines_of, IsSchedule};
ghost use Rattle.cf_simulate.specs.ScheduleRead.{HasLines, IsReadTo, RefusesLine, RefusesText};
ghost use Rattle.cf_simulate.specs.ScheduleRead.{KeepsEpoch, RefusesEpoch, line_at};

use crate::error::SimulateError;
use cf_schedule::{Event, EventFault};
use std::alloc::{AllocError, Global};
use std::collections::BTreeSet;

/// A line of a schedule, and its number from 1.
#[derive(Clone, Copy)]
pub struct Line<'a> {
    pub number: usize,
    pub text: &'a str,
}

/// The events of a schedule, and the line of each.
#[derive(Drop)]
pub struct Schedule<'a> {
    pub events: Vec<Event>,
    lines: Vec<Line<'a>>,
    epochs: BTreeSet<String>,
}

impl<'a> Schedule<'a> {
    /// The events of a text's lines, for a schedule over `nodes` nodes. The first line that is unreadable, or that
    /// gives an epoch again, is refused.
    pub fn read(alloc: Global, text: &'a str, nodes: u8) -> Result<Schedule<'a>, SimulateError>
        ensures ok { IfOk result (λ s. IsSchedule nodes text.now (map seen s.events.items)) }
        ensures lines { IfOk result (HasLines nodes (lines_of text.now)) }
        ensures err { IfErr result (RefusesText nodes text.now) }
    {
        let lines = lines_of(alloc, text)?;
        let mut schedule = Schedule::new(alloc);
        for (before, line) in lines.iter().enumerate() {
            schedule.read_line(alloc, before + 1, line, nodes)?;
        }
        Ok(schedule)
    }

    // The schedule of no line.
    fn new(alloc: Global) -> Schedule<'a>
        ensures events { (nodes : ℕ) → IsReadTo nodes [] result }
        ensures lines { (nodes : ℕ) → HasLines nodes [] result }
    {
        Schedule {
            events: Vec::new(alloc),
            lines: Vec::new(alloc),
            epochs: BTreeSet::new(alloc),
        }
    }

    // Reads the line of this number, behind those that were read.
    fn read_line(
        &mut self,
        alloc: Global,
        number: usize,
        line: &'a str,
        nodes: u8,
    ) -> Result<(), SimulateError>
        ensures ok { OnOk result ((before : List (List ℕ)) → IsReadTo nodes before self.old
            → IsReadTo nodes (before ++ line.now ∷ []) self.new) }
        ensures lines { OnOk result ((before : List (List ℕ)) → number ≡ length before + 1
            → HasLines nodes before self.old
            → HasLines nodes (before ++ line.now ∷ []) self.new) }
        ensures err { IfErr result (λ f. (before : List (List ℕ))
            (read : IsReadTo nodes before self.old)
            → RefusesLine nodes line.now number read.given f) }
    {
        match Event::read(alloc, line, nodes) {
            Ok(None) => Ok(()),
            Ok(Some(event)) => self.add(alloc, number, line, event),
            Err(EventFault::Unreadable) => Err(SimulateError::Unreadable { line: number }),
            Err(EventFault::Memory) => Err(SimulateError::Memory),
        }
    }

    // Adds the event of the line of this number. If it brings an epoch again, it is refused, and with it the schedule.
    fn add(
        &mut self,
        alloc: Global,
        number: usize,
        line: &'a str,
        event: Event,
    ) -> Result<(), SimulateError>
        ensures ok { OnOk result ((nodes : ℕ) (before : List (List ℕ))
            → Says nodes line.now (seen event) → IsReadTo nodes before self.old
            → IsReadTo nodes (before ++ line.now ∷ []) self.new) }
        ensures lines { OnOk result ((nodes : ℕ) (before : List (List ℕ))
            → number ≡ length before + 1 → Says nodes line.now (seen event)
            → HasLines nodes before self.old
            → HasLines nodes (before ++ line.now ∷ []) self.new) }
        ensures err { IfErr result (λ f. (nodes : ℕ) (before : List (List ℕ))
            → Says nodes line.now (seen event) → (read : IsReadTo nodes before self.old)
            → RefusesLine nodes line.now number read.given f) }
    {
        let kept = keep_epoch(alloc, &mut self.epochs, &event, number);
        self.events.push(event)?;
        self.lines.push(Line { number, text: line })?;
        kept
    }

    /// The line of the event behind the first `done`.
    pub fn line(&self, done: usize) -> Line<'a>
        ensures { IfSome (line_at self.now done) (λ line. result ≡ line) }
    {
        let none = Line {
            number: 0,
            text: "",
        };
        self.lines.get(done).copied().unwrap_or(none)
    }
}

// The lines of a text.
fn lines_of(alloc: Global, text: &str) -> Result<Vec<&str>, AllocError>
    ensures { IfOk result (λ v. map (λ line. line.now) v.items ≡ lines_of text.now) }
{
    text.split('\n').collect(alloc)
}

// Keeps the epoch that an event brings, and refuses it if an earlier event brought it.
fn keep_epoch(
    alloc: Global,
    epochs: &mut BTreeSet<String>,
    event: &Event,
    line: usize,
) -> Result<(), SimulateError>
    ensures ok { OnOk result (KeepsEpoch epochs.old (seen event.now) epochs.new) }
    ensures err { IfErr result (RefusesEpoch epochs.old (seen event.now) line) }
{
    let Event::Epoch { epoch } = event else {
        return Ok(());
    };
    if epochs.contains(epoch.as_str()) {
        return Err(SimulateError::UsedTwice {
            line,
            epoch: *epoch,
        });
    }
    epochs.insert(String::from_str(alloc, epoch.as_str())?)?;
    Ok(())
}
