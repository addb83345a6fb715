//! What was taken from a node's hub for a client, and isn't sent yet.
ghost use Rattle.std.specs.Prelude.{◌≡◌, ◌==◌, ◌++◌, [], None, option_to_list};
ghost use Rattle.std.specs.VecDeque.{deque_len};
ghost use Rattle.cf_dispatch.specs.Outlet.{is_for};

use cf_queue::Out;
use std::alloc::Global;
use std::collections::VecDeque;
use std::marker::Model;

/// What was taken from a node's hub for a client and isn't sent yet, the first first. It is of the session for which it was first
/// taken, and of no other from then on: what the hub gives for that session comes into it, behind what is there, and nothing else
/// does. Only its front leaves it.
#[derive(Drop)]
pub struct Outbox {
    pub(crate) session: Option<u32>,
    pub(crate) items: VecDeque<Out>,
}

impl Model for Outbox {
    ghost use Rattle.cf_dispatch.specs.Outlet.{Boxed};

    ghost Value = { Boxed };

    ghost view = { λ b. record { session = b.session; outs = b.items } };
}

impl Outbox {
    /// Of no session yet, with nothing in it. It takes no memory.
    pub fn new(alloc: Global) -> Outbox
        ensures session { result.session ≡ None }
        ensures empty { result.outs.items ≡ [] }
    {
        Outbox {
            session: None,
            items: VecDeque::new(alloc),
        }
    }

    /// The number of the session that it is of, once something was taken for one.
    pub fn session(&self) -> Option<u32>
        ensures { result ≡ self.now.session }
    {
        self.session
    }

    /// Whether what waits for a session may be taken into it: it is of that one, or of none yet.
    pub fn is_for(&self, session: u32) -> bool
        ensures { result ≡ is_for session self.now }
    {
        match self.session {
            Some(own) => own == session,
            None => true,
        }
    }

    /// What is in it.
    pub fn items(&self) -> &VecDeque<Out>
        ensures { result.now ≡ self.now.outs }
    {
        &self.items
    }

    /// Whether nothing is in it.
    pub fn is_empty(&self) -> bool
        ensures { result ≡ (deque_len self.now.outs == 0) }
    {
        self.items.is_empty()
    }

    /// What goes out next: the front, which leaves it. None where nothing is in it.
    pub fn next(&mut self) -> Option<Out>
        ensures front { self.old.outs.items ≡ option_to_list result ++ self.new.outs.items }
        ensures none { result ≡ None → self.old.outs.items ≡ [] }
        ensures session { self.new.session ≡ self.old.session }
    {
        self.items.pop_front()
    }

    /// Gives memory back but for so many items.
    pub fn shrink_to(&mut self, count: usize)
        ensures items { self.new.outs.items ≡ self.old.outs.items }
        ensures session { self.new.session ≡ self.old.session }
    {
        self.items.shrink_to(count);
    }
}
