//! What an application gets from its client.
ghost use Rattle.std.specs.Prelude.{◌≡◌, ◌++◌, OnOk, map, string_bytes};
ghost use Rattle.cf_client.specs.AppItem.{published};
ghost use Rattle.cf_client.specs.Shown.{shown_item};

use cf_protocol::{Epoch, Position, Publication};
use std::alloc::AllocError;

/// What an application gets from its client.
#[derive(Drop)]
pub enum AppEvent {
    /// The subscription stands. The publications that the client gets from now on follow the position, or the position
    /// that it had before if it has recovered.
    Subscribed {
        channel: String,
        /// Whether the client asked to go on from a position.
        was_recovering: bool,
        /// Whether all that was published since that position follows.
        recovered: bool,
        /// The stream's last position.
        position: Position,
    },
    /// A publication of a channel.
    Published {
        channel: String,
        position: Position,
        /// The compact text of its data.
        body: String,
    },
    /// The node ended the subscription, and the client has to ask again.
    Resubscribing {
        channel: String,
        /// The code of the unsubscribe push, 2500 or more.
        code: u32,
    },
    /// The node refused an ask, a publish or a history.
    Refused {
        channel: String,
        /// The error's code.
        code: u32,
    },
    /// The answer to a history.
    Listed {
        channel: String,
        /// The stream's last position.
        position: Position,
        /// How many publications came.
        count: usize,
    },
    /// The node's ping, which is to be answered by the pong `{}`.
    PongDue,
}

// A publication as the application gets it.
pub(crate) fn passed(channel: String, epoch: Epoch, publication: Publication) -> AppEvent
    ensures { shown_item result ≡ published (string_bytes channel) epoch publication }
{
    let offset = publication.offset;
    AppEvent::Published {
        channel,
        position: Position { epoch, offset },
        body: publication.body,
    }
}

// The publications that came with a reply, as the application gets them.
pub(crate) fn pass_all(
    channel: &str,
    position: &Position,
    publications: Vec<Publication>,
    events: &mut Vec<AppEvent>,
) -> Result<(), AllocError>
    ensures { OnOk result
        (map shown_item events.new.items
        ≡ map shown_item events.old.items
        ++ map (published channel.now position.now.epoch) publications.items) }
{
    let alloc = *events.allocator();
    let epoch = position.epoch;
    for publication in publications {
        let channel = String::from_str(alloc, channel)?;
        events.push(passed(channel, epoch, publication))?;
    }
    Ok(())
}
