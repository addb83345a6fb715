//! What one end of a link tells the other.
ghost use Rattle.std.specs.Prelude.{◌≡◌};
ghost use Rattle.cf_link.specs.Link.{IsSameEnd};

use crate::ends::{Receiver, Sender};
use crate::log::{HearsReceived, HearsSent, Log, TellsLog};
use crossbeam_queue::Pass;
use std::marker::Model;

/// What had been sent and received at one moment, as one end knew it. It may go to the thread of the other end. Contracts see the
/// link and the two lists.
#[derive(Drop)]
pub struct Told<T> {
    pass: Pass<T, Log<T>>,
}

impl<T> Model for Told<T> {
    ghost use Rattle.std.specs.Prelude.{◌≡◌, []};
    ghost use Rattle.crossbeam_queue.specs.Passes.{view as known};
    ghost use Rattle.cf_link.specs.Link.{Report};

    ghost Value = { Report T };

    ghost view = { λ t. record {
      link = t.pass.table_id;
      sent = (known t.pass).sent;
      received = (known t.pass).received;
    } };

    ghost invariant = { λ t. t.pass.me.1 ≡ [] };
}

impl<T> Sender<T> {
    /// What this end has sent, and what it was told. It takes no memory.
    pub fn tell(&mut self) -> Told<T>
        ensures same { self.new ≡ self.old }
        ensures link { result.link ≡ self.old.link }
        ensures sent { result.sent ≡ self.old.items }
        ensures received { result.received ≡ self.old.told }
    {
        let pass = self.line.another::<TellsLog>(&mut self.pass);
        Told { pass }
    }

    /// This end knows from now on what had been received when that was told, in place of what it was told before. It takes no
    /// memory.
    pub fn hear(&mut self, told: Told<T>)
        requires { told.link ≡ self.old.link }
        ensures same { IsSameEnd self.new self.old }
        ensures told { self.new.told ≡ told.received }
    {
        self.line.absorb::<HearsReceived>(&mut self.pass, told.pass);
    }
}

impl<T> Receiver<T> {
    /// What this end has received, and what it was told. It takes no memory.
    pub fn tell(&mut self) -> Told<T>
        ensures same { self.new ≡ self.old }
        ensures link { result.link ≡ self.old.link }
        ensures sent { result.sent ≡ self.old.told }
        ensures received { result.received ≡ self.old.items }
    {
        let pass = self.line.another::<TellsLog>(&mut self.pass);
        Told { pass }
    }

    /// This end knows from now on what had been sent when that was told, in place of what it was told before: `receive` won't be
    /// `None` before it has given that. It takes no memory.
    pub fn hear(&mut self, told: Told<T>)
        requires { told.link ≡ self.old.link }
        ensures same { IsSameEnd self.new self.old }
        ensures told { self.new.told ≡ told.sent }
    {
        self.line.absorb::<HearsSent>(&mut self.pass, told.pass);
    }
}
