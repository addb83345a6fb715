//! What is looked after every 25 seconds for each client: where its subscriptions stand, and that
//! it is present.
use crate::attached_client::Present;
use crate::backend::Backend;
use crate::command_handler::CommandHandler;
use cf_dispatch::{goes_on, is_close_over, mark_after};
use cf_protocol::CloseCode;

/// How many seconds lie between two rounds of a client.
const ROUND: u64 = 25;

impl<'a, B: Backend> CommandHandler<'a, B> {
    /// What a second brings: where the session is over, whether its connection still stands; else a
    /// round, where the client's last was 25 seconds ago: the position of each of its subscriptions
    /// is checked, and it is present again in each channel that it still has.
    pub(crate) fn refresh(&mut self, now: u64) -> bool {
        self.now = now;
        if self.looks_for_end() {
            // Its socket may take what waits for it for a while.
            let is_over = is_close_over(self.client.refreshed, now);
            if is_over {
                self.count_slow();
            }
            return !is_over;
        }
        if self.client.has_session() && now.saturating_sub(self.client.refreshed) >= ROUND {
            self.client.refreshed = now;
            self.go_round();
        }
        true
    }

    /// What a second brings before the hub's pings: who waits for its turn isn't late with an answer,
    /// which may lie in its socket, and the hub forgets that it owes one; who had 8 seconds since then
    /// is closed with 3012.
    pub(crate) fn looks_for_pong(&mut self, now: u64, is_unheard: bool) {
        if !self.client.has_session() {
            return;
        }
        if is_unheard && self.client.pongs.owes() {
            self.backend.hub().pong(&self.client);
        }
        if self.client.pongs.second_comes(now, is_unheard) {
            let code = CloseCode::NoPong.code();
            self.backend.hub().close(&self.client, code);
        }
    }

    // A round of the client.
    fn go_round(&mut self) {
        self.backend.hub().forgets_ended(&mut self.client);
        for _ in 0..self.client.channels.len() {
            // Each is taken from the front and, where it stands, put back behind the others.
            if let Some(mut present) = self.client.channels.pop_front() {
                if self.stands(&mut present) {
                    self.enter(present.channel.as_str());
                    let _ = self.client.channels.push_back(present);
                } else {
                    self.backend
                        .leave(present.channel.as_str(), self.client.id.as_str());
                }
            }
        }
    }

    // Checks the position of a subscription, and says whether it goes on. Where its last check was
    // fine, and its shard's log is as it was then, this one would be fine too, and is left out.
    fn stands(&self, present: &mut Present) -> bool {
        let channel = present.channel.as_str();
        let Some((top, mark)) = self.backend.position_since(channel, present.mark) else {
            return true;
        };
        let checked = self.backend.hub().check(&self.client, channel, top);
        present.mark = mark_after(checked, mark);
        goes_on(checked)
    }

    /// The connection is over: the client's session goes, and it is present nowhere.
    pub(crate) fn give_up(&mut self) {
        self.backend.hub().detach(&mut self.client);
        self.leave_all();
    }

    /// Nothing more comes of the client: it is present nowhere from now on, whatever of what it sent
    /// before is still to be carried out.
    pub(crate) fn keep_gone(&mut self) {
        self.client.is_gone = true;
        self.leave_all();
    }

    /// The client is present nowhere from now on.
    pub(crate) fn leave_all(&mut self) {
        for present in self.client.channels.iter() {
            self.backend
                .leave(present.channel.as_str(), self.client.id.as_str());
        }
        self.client.channels.clear();
    }
}
