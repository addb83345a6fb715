//! What a node knows of a client's session in its hub, so that nothing is carried out for one that is over.
use cf_node_hub::NodeHub;
use cf_shard::Naming;
use std::marker::Model;

/// What the node knows of one client's session in its hub: its number there, and whether it is over.
#[derive(Drop)]
pub struct Standing {
    number: Option<u32>,
    is_over: bool,
}

impl Model for Standing {
    ghost use Rattle.cf_dispatch.specs.Standing.{Stands};

    ghost Value = { Stands };

    ghost view = { λ s. record { number = s.number; is_over = s.is_over } };
}

impl Standing {
    ghost use Rattle.std.specs.Prelude.{◌≡◌, Some, true};
    ghost use Rattle.cf_dispatch.specs.Standing.{Stands, looked, nobody};

    /// A client that has no session yet, and isn't over.
    pub fn nobody() -> Standing
        ensures { result ≡ nobody }
    {
        Standing {
            number: None,
            is_over: false,
        }
    }

    /// The number of the client's session in the hub, once it has one.
    pub fn number(&self) -> Option<u32>
        ensures { result ≡ self.now.number }
    {
        self.number
    }

    /// Whether it is over, as far as was looked or told.
    pub fn is_over(&self) -> bool
        ensures { result ≡ self.now.is_over }
    {
        self.is_over
    }

    /// The client has a session now.
    pub fn attach(&mut self, number: u32)
        ensures { self.new ≡ record self.old { number = Some number } }
    {
        self.number = Some(number);
    }

    /// Looks whether the hub has closed the session, or doesn't have it any more: then it is over. Once over it stays so.
    pub fn look<N: Naming>(&mut self, hub: &NodeHub<N>)
        ensures { self.new ≡ looked hub.now.node self.old }
    {
        let is_gone = match self.number {
            Some(number) => hub.is_closed(number),
            None => false,
        };
        self.is_over = self.is_over || is_gone;
    }

    /// It is over.
    pub fn end(&mut self)
        ensures { self.new ≡ record self.old { is_over = true } }
    {
        self.is_over = true;
    }
}
