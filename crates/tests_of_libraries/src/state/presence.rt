//! Who is there in each channel.
use crate::rows::{Subject, Told, are_so, call_of};
use cf_presence::{Presence, Stats};
use std::alloc::Global;

/// A client with this number, of one of ten users, enters a channel.
fn enter(alloc: Global, presence: &mut Presence, channel: u32, number: u32) -> Option<()> {
    let channel = format!(in alloc; "c{channel}").ok()?;
    let client = format!(in alloc; "0-1-{number}").ok()?;
    let user = format!(in alloc; "user{}", number % 10).ok()?;
    presence
        .enter(channel.as_str(), client.as_str(), user.as_str(), 0)
        .ok()
}

/// A thousand clients enter one channel, and one of them a hundred more.
fn enter_all(alloc: Global, presence: &mut Presence) -> Option<()> {
    for number in 0..1000 {
        enter(alloc, presence, 0, number)?;
        enter(alloc, presence, number % 100, 7)?;
    }
    Some(())
}

const THOUSAND: Stats = Stats {
    clients: 1000,
    users: 10,
};

/// Whether a thousand clients of ten users are in the first channel, and are listed.
fn are_there(presence: &Presence) -> bool {
    match presence.list("c0") {
        Ok(users) => users.len() == 1000 && presence.stats("c0") == THOUSAND,
        Err(_) => false,
    }
}

/// They enter, and enter again.
#[test]
fn a_thousand_clients(rt: HostRuntime) {
    let mut presence = Presence::new(rt.alloc());
    for _ in 0..2 {
        assert!(rt; enter_all(rt.alloc(), &mut presence).is_some());
        assert!(rt; are_there(&presence));
    }
}

/// Tells who is in a channel, each with its user.
fn tell_list(told: &mut Told, presence: &Presence, channel: &str) {
    match presence.list(channel) {
        Ok(users) => {
            for (client, user) in users.iter() {
                told.part(", ");
                told.tell(format_args!("{client} {user}"));
            }
        }
        Err(refusal) => told.tell(refusal),
    }
}

/// `enter 0-1-1 ann` and `leave 0-1-1` are of `news` at moment 0; `list` and `stats` are of that too.
impl Subject for Presence {
    fn play(&mut self, _alloc: Global, done: &str, told: &mut Told) {
        let (name, passed) = call_of(done);
        let (client, user) = call_of(passed);
        match name {
            "enter" => match self.enter("news", client, user, 0) {
                Ok(()) => told.tell("entered"),
                Err(refusal) => told.tell(refusal),
            },
            "leave" => self.leave("news", client),
            "list" => tell_list(told, self, "news"),
            "stats" => {
                let Stats { clients, users } = self.stats("news");
                told.tell(format_args!("{clients} {users}"));
            }
            "tick" => {
                let now = told.long_number(passed);
                self.tick(now);
            }
            _ => told.tell("no call"),
        }
    }
}

const SECONDS: &str = "\
enter 0-1-1 ann => entered
tick 59 => nothing
list => 0-1-1 ann
stats => 1 1
tick 60 => nothing
list => nothing
stats => 0 0
enter 0-1-2 bob => entered
enter 0-1-3 bob => entered
list => 0-1-2 bob, 0-1-3 bob
stats => 2 1
leave 0-1-2 => nothing
list => 0-1-3 bob";

/// Who entered at 0 is listed at 59, and gone at 60.
#[test]
fn presence_lasts(rt: HostRuntime) {
    let mut presence = Presence::new(rt.alloc());
    are_so(&rt, rt.alloc(), "state/presence", &mut presence, SECONDS);
}
