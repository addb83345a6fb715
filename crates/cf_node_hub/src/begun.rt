//! Subscriptions that have begun, whose streams are still to be read.
ghost use Rattle.std.specs.Prelude.{◌≡◌};
ghost use Rattle.cf_shard.specs.Shards.{number_of};

use cf_order::Pass;
use cf_protocol::Position;
use cf_shard::{Naming, ShardWords, shard_of};
use std::marker::{Model, PhantomData};

/// A subscription that a session has begun: its channel's stream is to be read for it, from the position from which it asked, and
/// by a pass that has seen what the node had seen as it began. Only a hub makes one, and it can't be changed or copied; what was
/// read ends it.
#[derive(Drop)]
pub struct Begun<N: Naming> {
    pub(crate) session: u32,
    pub(crate) channel: String,
    pub(crate) since: Option<Position>,
    pub(crate) pass: Pass,
    pub(crate) of: PhantomData<N>,
}

impl<N: Naming> Model for Begun<N> {
    ghost use Rattle.std.specs.Prelude.{◌≡◌};
    ghost use Rattle.std.specs.String.{string_bytes};
    ghost use Rattle.cf_shard.specs.Shards.{number_of};
    ghost use Rattle.cf_node_hub.specs.Asking.{Ask};

    ghost Value = { Ask };

    ghost view = { λ b. record {
      session = b.session;
      channel = string_bytes b.channel;
      since = b.since;
      seen = b.pass.log;
    } };

    ghost invariant = { λ b. b.pass.word ≡ N.words (number_of (string_bytes b.channel)) };
}

impl<N: Naming> Begun<N> {
    /// The number of the session that began it.
    pub fn session(&self) -> u32
        ensures { result ≡ self.now.session }
    {
        self.session
    }

    /// The channel that it is of.
    pub fn channel(&self) -> &str
        ensures { result.now ≡ self.now.channel }
    {
        self.channel.as_str()
    }

    /// The position from which it asked, if it did from one.
    pub fn since(&self) -> Option<Position>
        ensures { result ≡ self.now.since }
    {
        self.since
    }

    /// A pass for the read of its channel's stream, which has seen what was seen as it began.
    pub fn lend<W: ShardWords<N>>(&mut self, words: &W) -> Pass
        ensures same { self.new ≡ self.old }
        ensures word { result.word ≡ N.words (number_of self.old.channel) }
        ensures seen { result.log ≡ self.old.seen }
    {
        let shard = shard_of(self.channel.as_str());
        words.shard_word(shard).lend(&mut self.pass)
    }
}
