//! What nodes share: the streams, the epochs that wait for them, and all that was accepted.
ghost use Rattle.std.specs.Prelude.{◌≡◌, IfOk, IsSome, option_copied, option_map};
ghost use Rattle.cf_protocol.specs.Settings.{NamespaceTable, settings_of};
ghost use Rattle.cf_machine.specs.FreshEpochs.{AreFresh};
ghost use Rattle.cf_machine.specs.PublicationList.{Broker as Shared, can_open, new_broker, publication};
ghost use Rattle.cf_machine.specs.ReadBack.{IsDatum};
ghost use Rattle.cf_world.specs.BrokerTie.{ShowsBroker, Histories, Publishes, Reads, Stands, datum_from, who_by};

use crate::epochs::WaitingEpochs;
use crate::out_of_memory::Short;
use cf_protocol::{Epoch, Info, Namespaces, Position, Publication};
use cf_stream::{History, Recovery, StreamRefusal, Streams};
use std::alloc::{AllocError, Global};

/// The moment of all that happens in a schedule, in seconds.
pub(crate) const NOW: u64 = 0;

/// A publication that was accepted, and where.
#[derive(Drop)]
pub(crate) struct AcceptedPublication {
    pub(crate) channel: String,
    pub(crate) epoch: Epoch,
    pub(crate) publication: Publication,
}

/// What became of a publish.
#[derive(Clone, Copy)]
pub(crate) enum PublishOutcome {
    Accepted,
    /// It repeats a publication that stands: its key is among the last hundred of the stream.
    Repeated,
    /// The stream is at its last offset.
    AtLastOffset,
    /// A stream would open, and no epoch waits.
    NoEpoch,
    /// The channel's namespace isn't set up.
    NotSetUp,
}

/// The streams, the epochs that wait for them, and all that was accepted, over all channels and in order.
#[derive(Drop)]
pub(crate) struct WorldBroker {
    pub(crate) epochs: WaitingEpochs,
    pub(crate) streams: Streams,
    accepted: Vec<AcceptedPublication>,
    pub(crate) alloc: Global,
}

impl WorldBroker {
    /// A broker to which nothing was published.
    pub(crate) fn new(alloc: Global, namespaces: &Namespaces) -> Result<WorldBroker, AllocError>
        ensures { IfOk result (λ b. ShowsBroker namespaces.now b new_broker) }
    {
        Ok(WorldBroker {
            epochs: WaitingEpochs::new(alloc),
            streams: Streams::new(alloc, namespaces)?,
            accepted: Vec::new(alloc),
            alloc,
        })
    }

    /// Whether a channel has a stream, or can have one.
    pub(crate) fn can_open(&self, channel: &str) -> bool
        ensures { (table : NamespaceTable) (m : Shared) → ShowsBroker table self.now m
            → result ≡ can_open channel.now m }
    {
        if self.streams.position(channel).is_some() {
            return true;
        }
        !self.epochs.is_empty()
    }

    /// Publishes to a channel, under a key, which may be the empty one, for the client of this id, if it is a client
    /// that publishes.
    pub(crate) fn publish(
        &mut self,
        channel: &str,
        key: &str,
        body: &str,
        client: Option<&str>,
    ) -> Result<PublishOutcome, Short>
        ensures { IfOk result (λ r. (table : NamespaceTable) (m : Shared) → AreFresh m
            → IsDatum (datum_from body.now (option_map (λ c. c.now) client.entry))
            → ShowsBroker table self.old m → Publishes table m channel.now key.now
            (datum_from body.now (option_map (λ c. c.now) client.entry)) self.new r) }
    {
        if !self.streams.is_set_up(channel) {
            return Ok(PublishOutcome::NotSetUp);
        }
        let sent = String::from_str(self.alloc, body)?;
        let under = String::from_str(self.alloc, key)?;
        let info = info_of(self.alloc, client)?;
        let published = match self
            .streams
            .publish(&mut self.epochs, channel, sent, under, info, NOW)
        {
            Ok(published) => published,
            Err(StreamRefusal::AtLastOffset) => return Ok(PublishOutcome::AtLastOffset),
            Err(StreamRefusal::NoEpoch) => return Ok(PublishOutcome::NoEpoch),
            Err(_) => return Err(Short),
        };
        if published.repeated {
            return Ok(PublishOutcome::Repeated);
        }
        // It is the newest that its stream holds.
        let Some(newest) = self.streams.last(channel) else {
            return Ok(PublishOutcome::Accepted);
        };
        self.accepted.push(AcceptedPublication {
            channel: String::from_str(self.alloc, channel)?,
            epoch: published.position.epoch,
            publication: newest.copied()?,
        })?;
        Ok(PublishOutcome::Accepted)
    }

    /// Reads a channel's stream for a subscription. None if its namespace is not set up, or no epoch waits for its
    /// stream.
    pub(crate) fn read(
        &mut self,
        channel: &str,
        since: Option<Position>,
    ) -> Result<Option<Recovery>, Short>
        ensures { IfOk result (λ r. (table : NamespaceTable) (m : Shared) → AreFresh m
            → IsSome (settings_of table channel.now) → ShowsBroker table self.old m
            → Reads table m channel.now since self.new r) }
    {
        if !self.streams.is_set_up(channel) {
            return Ok(None);
        }
        match self.streams.read(&mut self.epochs, channel, since, NOW) {
            Ok(recovery) => Ok(Some(recovery)),
            Err(StreamRefusal::NoEpoch) => Ok(None),
            Err(_) => Err(Short),
        }
    }

    /// The history of a channel's stream. None as for a read.
    pub(crate) fn history(&mut self, channel: &str, limit: i32) -> Result<Option<History>, Short>
        ensures { IfOk result (λ r. (table : NamespaceTable) (m : Shared) → AreFresh m
            → IsSome (settings_of table channel.now) → ShowsBroker table self.old m
            → Histories table m channel.now limit self.new r) }
    {
        if !self.streams.is_set_up(channel) {
            return Ok(None);
        }
        match self
            .streams
            .history(&mut self.epochs, channel, None, limit, NOW)
        {
            Ok(history) => Ok(Some(history)),
            Err(StreamRefusal::NoEpoch) => Ok(None),
            Err(_) => Err(Short),
        }
    }

    /// The publication of this number, from 1, among all that were accepted.
    pub(crate) fn accepted(&self, number: u64) -> Option<&AcceptedPublication>
        ensures { (table : NamespaceTable) (m : Shared) → ShowsBroker table self.now m
            → Stands m.lists (option_copied result) (publication number m) }
    {
        let index = number.checked_sub(1)?;
        self.accepted.get(index as usize)
    }
}

/// Who publishes, by the client's id, if it is a client. All clients connect as the empty user.
fn info_of(alloc: Global, client: Option<&str>) -> Result<Option<Info>, AllocError>
    ensures { IfOk result (λ info. info ≡ who_by (option_map (λ c. c.now) client.entry)) }
{
    let Some(client) = client else {
        return Ok(None);
    };
    let client = String::from_str(alloc, client)?;
    let user = String::new(alloc);
    Ok(Some(Info { user, client }))
}
