//! The numbers of shards.
ghost use Rattle.std.specs.Prelude.{◌≡◌, ◌<◌};
ghost use Rattle.cf_shard.specs.Shards.{number_of};

/// How many shards there are.
pub const SHARDS: usize = 16;

/// The number of a channel's shard: the sum of the channel's bytes, modulo 16.
pub fn shard_of(channel: &str) -> usize
    ensures number { result ≡ number_of channel.now }
    ensures within { result < SHARDS }
{
    let mut number = 0;
    for byte in channel.as_bytes() {
        number = (number + *byte as usize) % SHARDS;
    }
    number
}
