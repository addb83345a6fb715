//! What a client is doing on each of its channels.
ghost use Rattle.std.specs.Prelude.{◌≡◌, List, ℕ, Some, IsSome, OnOk, OnErr, if◌then◌else◌};
ghost use Rattle.std.specs.Option.{option_map};
ghost use Rattle.std.specs.Map.{update};
ghost use Rattle.std.specs.Str.{bytes_eq};
ghost use Rattle.std.specs.BTreeMap.{get_by_text};
ghost use Rattle.cf_model.specs.Clients.{idle, last_of};
ghost use Rattle.cf_client.specs.ClientCalls.{asks_under};
ghost use Rattle.cf_client.specs.declared.channels.Mode.TheVariants as code;
ghost use Rattle.cf_client.specs.Shown.{modes_of, shown_mode, SetsMode};

use cf_protocol::Position;
use std::alloc::{AllocError, AllocFailed, Global};
use std::collections::BTreeMap;

/// What a client is doing on a channel.
#[derive(Clone, Copy)]
pub(crate) enum Mode {
    /// It isn't subscribed. Perhaps it has a last position there.
    Idle {
        last: Option<Position>,
    },
    /// It has no answer yet to its command of this id, which asked from a position, or from none.
    Asking {
        id: u32,
        from: Option<Position>,
        last: Option<Position>,
    },
    /// It is subscribed, and this far.
    Live {
        at: Position,
    },
}

impl Mode {
    /// The last position.
    pub(crate) fn last(&self) -> Option<Position>
        ensures { result ≡ last_of (shown_mode self.now) }
    {
        match self {
            Mode::Idle { last } => *last,
            Mode::Asking { last, .. } => *last,
            Mode::Live { at } => Some(*at),
        }
    }

    /// The mode after the subscription ended.
    pub(crate) fn idle(&self) -> Mode
        ensures { result ≡ code.Idle (last_of (shown_mode self.now)) }
    {
        Mode::Idle { last: self.last() }
    }

    /// Whether it waits for the answer to the command of this id.
    pub(crate) fn is_asking(&self, id: u32) -> bool
        ensures { result ≡ asks_under id (shown_mode self.now) }
    {
        match self {
            Mode::Idle { .. } => false,
            Mode::Asking { id: asked, .. } => id == *asked,
            Mode::Live { .. } => false,
        }
    }
}

/// What the client is doing on a channel. One that it never asked for is idle.
pub(crate) fn mode_at(channels: &BTreeMap<String, Mode>, channel: &str) -> Mode
    ensures { shown_mode result ≡ modes_of channels.now channel.now }
{
    match channels.get(channel) {
        None => Mode::Idle { last: None },
        Some(mode) => *mode,
    }
}

/// Puts a mode at a channel, which may have had none.
pub(crate) fn put_mode(
    channels: &mut BTreeMap<String, Mode>,
    alloc: Global,
    channel: &str,
    mode: Mode,
) -> Result<(), AllocError>
    ensures puts { OnOk result ((c : List ℕ)
        → get_by_text channels.new c
        ≡ update bytes_eq (get_by_text channels.old) channel.now (Some mode) c) }
    ensures err { OnErr result (channels.new.entries ≡ channels.old.entries) }
{
    let key = String::from_str(alloc, channel)?;
    match channels.insert(key, mode) {
        Ok(_) => Ok(()),
        Err(
            AllocFailed {
                value: (_key, _mode),
            },
        ) => Err(AllocError),
    }
}

/// Changes the mode of a channel that the client asked for. Another stays as it is.
pub(crate) fn set_mode(channels: &mut BTreeMap<String, Mode>, channel: &str, mode: Mode)
    ensures sets { IsSome (get_by_text channels.old channel.now)
        → SetsMode channels.old channels.new channel.now (shown_mode mode) }
    ensures each { (c : List ℕ)
        → get_by_text channels.new c
        ≡ option_map (λ m. if bytes_eq channel.now c then mode else m)
        (get_by_text channels.old c) }
{
    if let Some(place) = channels.get_mut(channel) {
        *place = mode;
    }
}

/// Makes every channel idle.
pub(crate) fn make_idle(channels: &mut BTreeMap<String, Mode>)
    ensures { (c : List ℕ) → modes_of channels.new c ≡ idle (modes_of channels.old c) }
{
    channels.retain(|_channel, mode| {
        *mode = mode.idle();
        true
    });
}
