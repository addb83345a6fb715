//! A hub of many sessions: deliveries to crowds of them, and the attach and detach of one.
use cf_hub::Hub;
use cf_protocol::{Epoch, Position, Publication};
use cf_stream::Recovery;
use std::alloc::{AllocError, Global};
use std::io;
use std::time::Instant;

/// A hub, and the channels of its crowds. It lies in a box, since a function that lends a hub of its own is costly to prove.
#[derive(Drop)]
pub(crate) struct Crowds {
    hub: Box<Hub>,
    channels: Vec<String>,
}

/// A new session, which follows a channel of its own.
fn join(hub: &mut Hub, alloc: Global, number: u32) -> Option<u32> {
    let user = String::from_str(alloc, "ann").ok()?;
    let session = hub.attach(user, 0).ok()?;
    let own = format!(in alloc; "own{number}").ok()?;
    subscribe(hub, alloc, session, own.as_str())?;
    Some(session)
}

/// Takes a session through a whole subscribe, its reply taken too.
fn subscribe(hub: &mut Hub, alloc: Global, session: u32, channel: &str) -> Option<()> {
    hub.begin(session, channel, 2, None).ok()?;
    let recovery = Recovery {
        position: Position {
            epoch: Epoch::from_text("aaaa"),
            offset: 0,
        },
        recovered: false,
        publications: Vec::new(alloc),
    };
    hub.read_done(session, channel, recovery);
    hub.finish(session, channel);
    hub.take(session);
    Some(())
}

/// So many clients take what waits for them.
fn drain(hub: &mut Hub, clients: u32) {
    for _ in 0..clients {
        if let Some(session) = hub.next_with_output() {
            hub.take(session);
        }
    }
}

/// Delivers a publication to each crowd in turn, taken before the next. Says how many pushes there were, and how many nanoseconds
/// the deliveries alone took.
fn deliver_round(
    rt: &HostRuntime,
    hub: &mut Hub,
    channels: &[String],
    publication: &Publication,
) -> io::Result<(u64, u128)> {
    let (mut pushes, mut spent) = (0_u64, 0_u128);
    for channel in channels {
        let start = Instant::now(rt)?;
        let epoch = Epoch::from_text("aaaa");
        let passed = hub.deliver(channel.as_str(), &epoch, publication).passed;
        spent = spent.saturating_add(start.elapsed(rt)?.as_nanos());
        pushes = pushes.saturating_add(u64::from(passed));
        drain(hub, passed);
    }
    Ok((pushes, spent))
}

impl Crowds {
    /// A hub with nobody on it, and no crowd.
    pub(crate) fn new(alloc: Global) -> Result<Crowds, AllocError> {
        Ok(Crowds {
            hub: Box::new(alloc, Hub::new(alloc, 0, 1))?,
            channels: Vec::new(alloc),
        })
    }

    /// `gather SESSIONS CROWDS SUBSCRIBERS` and `move SESSION TIMES`. Says how many sessions were attached.
    pub(crate) fn call(
        &mut self,
        alloc: Global,
        name: &str,
        (first, second, third): (u32, u32, u32),
    ) -> Option<u64> {
        if name == "move" {
            return self.come_and_go(alloc, first, second);
        }
        self.name_crowds(alloc, second)?;
        self.gather(alloc, first, second.saturating_mul(third))
    }

    /// The channels of so many crowds.
    fn name_crowds(&mut self, alloc: Global, crowds: u32) -> Option<()> {
        for number in 0..crowds {
            let channel = format!(in alloc; "news{number}").ok()?;
            self.channels.push(channel).ok()?;
        }
        Some(())
    }

    /// So many sessions. Those of the crowds, so many in all, stand apart, one of each crowd after the other.
    fn gather(&mut self, alloc: Global, sessions: u32, followers: u32) -> Option<u64> {
        let step = (sessions / followers.max(1)).max(1);
        let mut turns = self.channels.iter().cycle().take(followers as usize);
        for number in 0..sessions {
            let session = join(&mut *self.hub, alloc, number)?;
            if number % step == 0
                && let Some(channel) = turns.next()
            {
                subscribe(&mut *self.hub, alloc, session, channel.as_str())?;
            }
        }
        Some(u64::from(sessions))
    }

    /// A session goes and comes again so often, each time with its row.
    fn come_and_go(&mut self, alloc: Global, session: u32, times: u32) -> Option<u64> {
        for _ in 0..times {
            self.hub.detach(session);
            join(&mut *self.hub, alloc, session)?;
        }
        Some(u64::from(times))
    }

    /// Delivers so many publications to each crowd. Says how many pushes there were, and how many nanoseconds the deliveries
    /// took.
    pub(crate) fn deliver(&mut self, rt: &HostRuntime, times: u32) -> io::Result<(u64, u128)> {
        let (mut pushes, mut spent) = (0_u64, 0_u128);
        let mut publication = Publication {
            offset: 0,
            body: String::from_str(rt.alloc(), "1")?,
            info: None,
        };
        for _ in 0..times {
            publication.offset = publication.offset.saturating_add(1);
            let channels = self.channels.as_slice();
            let round = deliver_round(rt, &mut *self.hub, channels, &publication)?;
            pushes = pushes.saturating_add(round.0);
            spent = spent.saturating_add(round.1);
        }
        Ok((pushes, spent))
    }
}
