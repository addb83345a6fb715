//! Publications and who published them.
ghost use Rattle.std.specs.Prelude.{◌≡◌, IfOk};

use std::alloc::AllocError;
use std::marker::Model;

/// The client that published: its user's name and its client id, which a session never leaves empty.
#[derive(Drop)]
pub struct Info {
    pub user: String,
    pub client: String,
}

impl Model for Info {
    ghost use Rattle.std.specs.String.{string_bytes};
    ghost use Rattle.cf_protocol.specs.Datum.{Who};

    ghost Value = { Who };

    ghost view = { λ i. record { user = string_bytes i.user; client = string_bytes i.client } };
}

impl Info {
    /// An equal one, unless memory is refused.
    pub fn copied(&self) -> Result<Info, AllocError>
        ensures { IfOk result (λ r. r ≡ self.now) }
    {
        Ok(Info {
            user: self.user.clone()?,
            client: self.client.clone()?,
        })
    }
}

/// A publication of a channel's stream.
#[derive(Drop)]
pub struct Publication {
    /// Its place in the stream, from 1.
    pub offset: u64,
    /// The compact text of its data.
    pub body: String,
    /// The client that published it, if one did.
    pub info: Option<Info>,
}

impl Model for Publication {
    ghost use Rattle.std.specs.String.{string_bytes};
    ghost use Rattle.cf_protocol.specs.Datum.{Placed};

    ghost Value = { Placed };

    ghost view = { λ p. record {
      offset = p.offset;
      datum = record { body = string_bytes p.body; info = p.info };
    } };
}

impl Publication {
    /// An equal one, unless memory is refused.
    pub fn copied(&self) -> Result<Publication, AllocError>
        ensures { IfOk result (λ r. r ≡ self.now) }
    {
        let body = self.body.clone()?;
        let info = match &self.info {
            None => None,
            Some(info) => Some(info.copied()?),
        };
        Ok(Publication {
            offset: self.offset,
            body,
            info,
        })
    }
}
