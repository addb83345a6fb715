//! What the clients got in a run.
ghost use Rattle.std.specs.Prelude.{◌≡◌, IsTrue};
ghost use Rattle.cf_machine.specs.TraceLine.{answer_word};
ghost use Rattle.cf_world.specs.Items.{is_got};

use cf_client::AppEvent;
use std::fmt;

/// What one application got.
#[derive(Drop)]
pub enum Item {
    /// From its client.
    Told(AppEvent),
    /// Its connection was closed, with this code.
    Closed(u16),
}

/// One thing that one application got. It is no ping: those are the client's alone.
#[derive(Drop)]
pub struct Entry {
    /// The number of the event that brought it, from 1.
    pub at: usize,
    /// The client's name.
    pub client: String,
    /// What the application got.
    pub item: Item,
    pub ghost is_got: { IsTrue (is_got item) },
}

// How a subscription stands to what its client had.
fn answer(was_recovering: bool, recovered: bool) -> &'static str
    ensures { result.now ≡ answer_word was_recovering recovered }
{
    if !was_recovering {
        "fresh"
    } else if recovered {
        "recovered"
    } else {
        "lost"
    }
}

impl fmt::Display for Entry {
    ghost use Rattle.std.specs.Prelude.{Some};
    ghost use Rattle.cf_machine.specs.TraceLine.{line_of};
    ghost use Rattle.cf_world.specs.Entries.{shown_entry};

    ghost output = { λ e. Some (line_of (shown_entry e)) };

    fn fmt<W: fmt::Write>(&self, f: &mut fmt::Formatter<W>) -> fmt::Result {
        let client = self.client.as_str();
        match &self.item {
            Item::Told(
                AppEvent::Subscribed {
                    channel,
                    was_recovering,
                    recovered,
                    position,
                },
            ) => {
                let answer = answer(*was_recovering, *recovered);
                let epoch = position.epoch;
                let offset = position.offset;
                write!(f, "{client} {channel} sub {epoch} {offset} {answer}")
            }
            Item::Told(
                AppEvent::Published {
                    channel,
                    position,
                    body,
                },
            ) => {
                let epoch = position.epoch;
                let offset = position.offset;
                write!(f, "{client} {channel} pub {epoch} {offset} {body}")
            }
            Item::Told(AppEvent::Resubscribing { channel, code }) => {
                write!(f, "{client} {channel} again {code}")
            }
            Item::Told(AppEvent::Refused { channel, code }) => {
                write!(f, "{client} {channel} refused {code}")
            }
            Item::Told(
                AppEvent::Listed {
                    channel,
                    position,
                    count,
                },
            ) => {
                let epoch = position.epoch;
                let offset = position.offset;
                write!(f, "{client} {channel} list {epoch} {offset} {count}")
            }
            Item::Told(AppEvent::PongDue) => Ok(()),
            Item::Closed(code) => write!(f, "{client} closed {code}"),
        }
    }
}
