//! Whose turn it is, by what each one's turns cost.
ghost use Rattle.std.specs.Prelude.{◌≡◌, ◌≤◌, ◌<◌, ◌+◌, ◌^◌, ◌==◌, ◌&&◌, ◌⊎◌, [], ◌∷◌, ℕ};
ghost use Rattle.std.specs.Prelude.{true, false, if◌then◌else◌, length, get_or, vec_len};
ghost use Rattle.std.specs.Prelude.{MatchOption, IfSome, IfNone, OnErr, OnOk};
ghost use Rattle.cf_fair.specs.Lane.{IsFirst, is_there, with_ticket};
ghost use Rattle.cf_fair.specs.Fair.{Comes, Goes, HasLightTurn, HasTurn, IsIdle, IsLightIdle};
ghost use Rattle.cf_fair.specs.Fair.{IsOnce, IsSame, IsTimed, PaysIf, is_known, waits as is_waiting};
ghost use Rattle.cf_fair.specs.Fair.{AllWaitBriefly, KeepsOrder, NobodySavesUp, NobodyWaitsTwice};
ghost use Rattle.cf_fair.specs.Fair.{TicketsStayTrue, TurnsAreCovered, WaitsBriefly, WaitsByExcess};

use crate::lane::{Lane, Ticket};
use std::alloc::{AllocError, Global};
use std::cmp::max;
use std::marker::Model;

/// Which slots have a turn owed, and who of them has the next one: who has had the least for its
/// turns.
///
/// Each slot has a virtual time, to which is added what its turns cost. It is due at its virtual
/// time and what its next turn is expected to cost; who is due first of those that wait has the
/// next turn, and of several the one that came first. So one whose turns cost little goes before
/// those whose turns cost much, until it has had as much as they. A turn is expected to cost what
/// the last one did, and no less than half of what that was expected to: one that is cheap is
/// believed by and by. One that is new is expected to cost nothing.
///
/// Who comes after it was idle, or is new, starts at the queue's clock at least. The clock goes on by
/// what each turn cost, divided by how many wait, and is no more than one budget behind when the last
/// one that was served was due: so nobody saves up more than that, and nobody is behind for ever
/// those that come anew for each turn.
///
/// Those that wait are of two classes: who is held has no turn by `next_light`.
///
/// Virtual times end at 2⁶⁴ - 1: whoever came so far stays there, and those that did have their turns
/// in the order in which they came.
#[derive(Drop)]
pub struct FairQueue {
    light: Lane,
    held: Lane,
    // By slot: its virtual time, and what its next turn is expected to cost.
    accounts: Vec<(u64, u64)>,
    clock: u64,
    budget: u64,
    // How many have come.
    number: u64,
}

impl Model for FairQueue {
    ghost use Rattle.cf_fair.specs.Fair.{Fair};

    ghost Value = { Fair };

    ghost view = { λ q. record {
      light = q.light;
      held = q.held;
      accounts = q.accounts.items;
      clock = q.clock;
      budget = q.budget;
      number = q.number;
    } };
}

impl FairQueue {
    /// Nobody waits, and a turn is to cost so much at most, in any unit. It takes no memory.
    pub fn new(alloc: Global, budget: u64) -> FairQueue
        ensures empty { result ≡ record {
          light = [];
          held = [];
          accounts = [];
          clock = 0;
          budget = budget;
          number = 0;
        } }
        ensures once { IsOnce result }
        ensures timed { IsTimed result }
    {
        FairQueue {
            light: Lane::new(alloc),
            held: Lane::new(alloc),
            accounts: Vec::new(alloc),
            clock: 0,
            budget,
            number: 0,
        }
    }

    /// Says that a slot is ready, or has more to do, and whether it is held. If it waits already
    /// nothing changes.
    ///
    /// # Errors
    ///
    /// If memory is refused nothing changes.
    pub fn add(&mut self, slot: usize, is_held: bool) -> Result<(), AllocError>
        ensures ok { OnOk result
            (Comes (is_waiting slot self.old) slot is_held self.old self.new) }
        ensures err { OnErr result (IsSame self.old self.new) }
    {
        if self.waits(slot) {
            return Ok(());
        }
        let count = slot.checked_add(1).ok_or(AllocError)?;
        open_accounts(&mut self.accounts, count)?;
        let (time, cost) = self.accounts[slot];
        let start = max(time, self.clock);
        let ticket = (start.saturating_add(cost), self.number, slot);
        join(&mut self.light, &mut self.held, ticket, is_held)?;
        self.accounts[slot] = (start, cost);
        self.number = self.number.saturating_add(1);
        Ok(())
    }

    /// Who has the next turn, of all that wait. It no longer waits.
    pub fn next(&mut self) -> Option<usize>
        ensures { MatchOption result (IsIdle self.old self.new)
            (λ k. HasTurn k self.old self.new) }
    {
        let ticket = pop_first(&mut self.light, &mut self.held)?;
        self.clock = max(self.clock, ticket.0.saturating_sub(self.budget));
        Some(ticket.2)
    }

    /// Who has the next turn, of those that aren't held. It no longer waits.
    pub fn next_light(&mut self) -> Option<usize>
        ensures { MatchOption result (IsLightIdle self.old self.new)
            (λ k. HasLightTurn k self.old self.new) }
    {
        let ticket = self.light.pop()?;
        self.clock = max(self.clock, ticket.0.saturating_sub(self.budget));
        Some(ticket.2)
    }

    /// What a slot's turn cost, all at once, is added to its virtual time. A slot that never came has
    /// none. The clock goes on by its share for each of those that wait, of so many others that wait
    /// elsewhere, and for itself.
    pub fn charge(&mut self, slot: usize, cost: u64, others: u64)
        ensures { PaysIf (is_known slot self.old) slot cost others self.old self.new }
    {
        if slot < self.accounts.len() {
            let time = self.accounts[slot].0.saturating_add(cost);
            let expected = max(cost, self.accounts[slot].1 / 2);
            self.accounts[slot] = (time, expected);
            let waiting = (self.len() as u64).saturating_add(others);
            let share = cost / waiting.saturating_add(1);
            self.clock = self.clock.saturating_add(share);
        }
    }

    /// A slot whose connection ended waits no more, and who comes there next is new.
    pub fn remove(&mut self, slot: usize)
        ensures { Goes slot self.old self.new }
    {
        self.light.remove(slot);
        self.held.remove(slot);
        if slot < self.accounts.len() {
            self.accounts[slot] = (0, 0);
        }
    }

    /// Whether a slot waits.
    pub fn waits(&self, slot: usize) -> bool
        ensures { result ≡ is_waiting slot self.now }
    {
        self.light.waits(slot) || self.held.waits(slot)
    }

    /// How many wait.
    pub fn len(&self) -> usize
        ensures len { result ≡ length self.now.light + length self.now.held }
        ensures small { result + 1 < 2 ^ 64 }
    {
        self.light.len() + self.held.len()
    }

    /// Whether nobody waits.
    pub fn is_empty(&self) -> bool
        ensures { result ≡ (length self.now.light + length self.now.held == 0) }
    {
        self.len() == 0
    }

    /// Whether of those that aren't held nobody waits.
    pub fn is_light_empty(&self) -> bool
        ensures { result ≡ (length self.now.light == 0) }
    {
        self.light.len() == 0
    }
}

// One more waits, in one of the two.
fn join(light: &mut Lane, held: &mut Lane, ticket: Ticket, is_held: bool) -> Result<(), AllocError>
    requires { (is_there ticket.2 light.old ≡ false) × (is_there ticket.2 held.old ≡ false) }
    ensures light { OnOk result
        (light.new ≡ (if is_held then light.old else with_ticket ticket light.old)) }
    ensures held { OnOk result
        (held.new ≡ (if is_held then with_ticket ticket held.old else held.old)) }
    ensures err { OnErr result ((light.new ≡ light.old) × (held.new ≡ held.old)) }
{
    if is_held {
        held.add(ticket)
    } else {
        light.add(ticket)
    }
}

// Who of both has the next turn waits no more.
fn pop_first(light: &mut Lane, held: &mut Lane) -> Option<Ticket>
    ensures none { IfNone result
        ((light.old ≡ []) × (held.old ≡ []) × (light.new ≡ light.old) × (held.new ≡ held.old)) }
    ensures lanes { IfSome result (λ t.
        ((light.old ≡ t ∷ light.new) × (held.new ≡ held.old))
        ⊎ ((light.new ≡ light.old) × (held.old ≡ t ∷ held.new))) }
    ensures first { IfSome result (λ t. IsFirst t light.new) }
    ensures first_of_all { IfSome result (λ t. IsFirst t held.new) }
{
    match (light.first(), held.first()) {
        (None, _) => held.pop(),
        (Some(_), None) => light.pop(),
        (Some(one), Some(other)) => {
            if one.cmp(&other).is_le() {
                light.pop()
            } else {
                held.pop()
            }
        }
    }
}

// Makes room for the accounts of so many slots.
fn open_accounts(accounts: &mut Vec<(u64, u64)>, count: usize) -> Result<(), AllocError>
    ensures same { (k : ℕ)
        → get_or accounts.new.items k (0, 0) ≡ get_or accounts.old.items k (0, 0) }
    ensures ok { OnOk result (count ≤ vec_len accounts.new) }
{
    if accounts.len() < count {
        accounts.resize(count, (0, 0))?;
    }
    Ok(())
}

/// The turns that a queue gives are fair by cost, whatever comes, has its turn, pays and ends. The
/// law is the function's contract.
pub fn turns_are_fair_by_cost()
    ensures once { NobodyWaitsTwice }
    ensures true_tickets { TicketsStayTrue }
    ensures covered { TurnsAreCovered }
    ensures brief { WaitsBriefly }
    ensures all_brief { AllWaitBriefly }
    ensures by_excess { WaitsByExcess }
    ensures no_savings { NobodySavesUp }
    ensures order { KeepsOrder }
{}
