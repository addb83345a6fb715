//! The publishes and histories that aren't answered yet.
ghost use Rattle.std.specs.Prelude.{◌≡◌, option_map};
ghost use Rattle.cf_client.specs.ClientCalls.{channel_under};
ghost use Rattle.cf_client.specs.Shown.{calls_of};

/// A publish or a history that isn't answered yet.
#[derive(Drop)]
pub(crate) struct Call {
    pub(crate) id: u32,
    pub(crate) channel: String,
}

/// The channel of the call under an id.
pub(crate) fn channel_called(calls: &Vec<Call>, id: u32) -> Option<&str>
    ensures { option_map (λ c. c.now) result ≡ channel_under id (calls_of calls.now.items) }
{
    for call in calls {
        if call.id == id {
            return Some(call.channel.as_str());
        }
    }
    None
}
