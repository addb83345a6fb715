//! A node's hub and the broker, each under its locks. Only the IO loop calls the broker, so no pass
//! is ever out when it is asked for.
ghost use Rattle.std.specs.Prelude.{◌≡◌, ◌<◌, IfSome};
ghost use Rattle.cf_shard.specs.Shards.{number_of};
ghost use Rattle.cf_node.specs.Answered.{StoodAt};

use crate::attached_client::LockedHub;
use crate::backend::Backend;
use crate::error_counts::NodeError;
use crate::node::Setup;
use crate::shared::Shared;
use crate::window::Window;
use cf_broker::{Broker, Passes, SHARDS, shard_of};
use cf_dispatch::keeps_presence;
use cf_node_hub::Begun;
use cf_order::Pass;
use cf_presence::Stats;
use cf_protocol::Position;
use cf_session::{Publish, Session};
use cf_shard::{Naming, Refused};
use cf_stream::{Epochs, History, Published, Recovery};
use std::alloc::Global;
use std::cell::RefCell;
use std::collections::BTreeMap;
use std::sync::Wait;

/// What a node's connections are served with.
#[derive(Drop)]
pub(crate) struct LiveBackend<'a, R, N: Naming, E: Epochs + Drop> {
    pub(crate) rt: &'a R,
    pub(crate) alloc: Global,
    pub(crate) setup: Setup<'a, N>,
    pub(crate) shared: &'a Shared<N>,
    pub(crate) broker: &'a Broker<N, E>,
    /// What the node knows of the logs of the broker's shards.
    pub(crate) passes: RefCell<Passes<N>>,
    /// What the node published last.
    pub(crate) window: RefCell<Window>,
}

impl<'a, R, N: Naming, E: Epochs + Drop> LiveBackend<'a, R, N, E> {
    // Whether all nodes were brought the older part of what this node published last.
    fn is_brought(&self) -> bool {
        let (Some(reach), Ok(window)) = (self.setup.reach, self.window.try_borrow()) else {
            return false;
        };
        for node in 0..self.broker.nodes() {
            if !window.is_brought(node, reach.brought(node)) {
                return false;
            }
        }
        true
    }
}

// The node's pass of a shard.
fn taken<N: Naming, E: Epochs + Drop>(
    passes: &RefCell<Passes<N>>,
    broker: &Broker<N, E>,
    shard: usize,
) -> Option<Pass>
    requires { shard < SHARDS }
    ensures { IfSome result (λ p. p.word ≡ N.words shard) }
{
    let mut passes = passes.try_borrow_mut().ok()?;
    Some(passes.take(broker, shard))
}

// Puts the node's pass of a shard back.
fn put_back<N: Naming>(passes: &RefCell<Passes<N>>, shard: usize, pass: Pass)
    requires shard { shard < SHARDS }
    requires pass { pass.word ≡ N.words shard }
{
    if let Ok(mut passes) = passes.try_borrow_mut() {
        passes.put(shard, pass);
    }
}

// Where a channel's stream stands, and how long its shard's log is, unless nothing happened there since that had so many entries.
fn stands_since<R: Wait, N: Naming, E: Epochs + Drop>(
    rt: &R,
    broker: &Broker<N, E>,
    pass: &mut Pass,
    channel: &str,
    mark: Option<u64>,
) -> Option<(Option<Position>, u64)>
    requires { pass.old.word ≡ N.words (number_of channel.now) }
    ensures stood { IfSome result (StoodAt N.namespaces channel.now) }
    ensures word { pass.new.word ≡ pass.old.word }
{
    let Some(mark) = mark else {
        return Some(broker.position(rt, pass, channel));
    };
    if broker.quiet_since(pass, channel, mark) {
        return None;
    }
    Some(broker.position(rt, pass, channel))
}

impl<'a, R: Wait, N: Naming, E: Epochs + Drop> Backend for LiveBackend<'a, R, N, E> {
    type Of = N;

    type Words = Broker<N, E>;

    fn alloc(&self) -> Global {
        self.alloc
    }

    fn session(&self) -> Session<'_> {
        Session::new(self.alloc, self.setup.namespaces, self.setup.tokens)
    }

    fn hub(&self) -> LockedHub<'_, N> {
        self.shared.hub(self.rt)
    }

    fn words(&self) -> &Broker<N, E> {
        self.broker
    }

    fn shared(&self) -> &Shared<N> {
        self.shared
    }

    fn is_crowded(&self) -> bool {
        self.broker.is_crowded(self.rt) && !self.is_brought()
    }

    fn count_accepted(&self, cost: u64) {
        let Some(reach) = self.setup.reach else {
            return;
        };
        let accepted = reach.count_accepted();
        let Ok(mut window) = self.window.try_borrow_mut() else {
            return;
        };
        if window.adds(cost) {
            window.turn_over();
            for node in 0..self.broker.nodes() {
                window.ends_at(node, accepted.saturating_sub(self.broker.lost(node)));
            }
        }
    }

    fn receivers(&self, channel: &str) -> u64 {
        match self.setup.reach {
            Some(reach) => reach.clients(channel),
            None => 0,
        }
    }

    fn ring(&self) {
        self.broker.ring(self.rt);
    }

    fn count(&self, fault: NodeError) {
        if let Some(counts) = self.setup.counts {
            counts.add(fault);
        }
    }

    fn publish(&self, publish: Publish, now: u64) -> Result<Published, Refused> {
        let Publish {
            channel,
            key,
            body,
            info,
        } = publish;
        let channel = channel.as_str();
        let shard = shard_of(channel);
        let Some(mut pass) = taken(&self.passes, self.broker, shard) else {
            return Err(Refused::NoEpoch);
        };
        let answer = self
            .broker
            .publish(self.rt, &mut pass, channel, body, key, Some(info), now);
        put_back(&self.passes, shard, pass);
        if self.shared.meets_many() {
            // What goes to many of the node's clients is brought on meanwhile.
            self.broker.ring_at(self.rt, usize::from(self.setup.node()));
        }
        answer
    }

    fn read(&self, begun: &mut Begun<N>, now: u64) -> Result<(Recovery, Pass), Refused> {
        let mut pass = begun.lend(self.broker);
        match self
            .broker
            .read(self.rt, &mut pass, begun.channel(), begun.since(), now)
        {
            Ok(answer) => Ok((answer.recovery, pass)),
            Err(refused) => Err(refused),
        }
    }

    fn history(
        &self,
        channel: &str,
        since: Option<Position>,
        limit: i32,
        now: u64,
    ) -> Result<(History, Pass), Refused> {
        let shard = shard_of(channel);
        let Some(mut pass) = taken(&self.passes, self.broker, shard) else {
            return Err(Refused::NoEpoch);
        };
        let answer = self
            .broker
            .history(self.rt, &mut pass, channel, since, limit, now);
        let lent = self.broker.word(shard).lend(&mut pass);
        put_back(&self.passes, shard, pass);
        match answer {
            Ok(history) => Ok((history, lent)),
            Err(refused) => Err(refused),
        }
    }

    fn position_since(&self, channel: &str, mark: Option<u64>) -> Option<(Option<Position>, u64)> {
        let shard = shard_of(channel);
        let Some(mut pass) = taken(&self.passes, self.broker, shard) else {
            return Some((None, 0));
        };
        let answer = stands_since(self.rt, self.broker, &mut pass, channel, mark);
        put_back(&self.passes, shard, pass);
        answer
    }

    fn tick(&self, now: u64) {
        if self.setup.node() == 0 {
            for shard in 0..SHARDS {
                if let Some(mut pass) = taken(&self.passes, self.broker, shard) {
                    // Where the shard's log is full, its streams stay as they are.
                    let _ = self.broker.tick(self.rt, &mut pass, shard, now);
                    put_back(&self.passes, shard, pass);
                }
            }
        }
    }

    fn enter(&self, channel: &str, client: &str, user: &str, now: u64) {
        if keeps_presence(self.setup.namespaces, channel) {
            let _ = self.broker.enter(self.rt, channel, client, user, now);
        }
    }

    fn leave(&self, channel: &str, client: &str) {
        self.broker.leave(self.rt, channel, client);
    }

    fn list(&self, channel: &str) -> Result<BTreeMap<String, String>, Refused> {
        self.broker.list(self.rt, channel)
    }

    fn stats(&self, channel: &str) -> Stats {
        self.broker.stats(self.rt, channel)
    }
}
