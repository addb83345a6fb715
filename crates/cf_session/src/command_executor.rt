//! A node as a session sees it.
ghost use Rattle.std.specs.Prelude.{◌≡◌, None, IsSome, option_map, string_bytes};
ghost use Rattle.cf_protocol.specs.Settings.{settings_of};
ghost use Rattle.cf_session.specs.Calls as call;
ghost use Rattle.cf_session.specs.Played.{ActHasStream, Gives, asked_kind};
ghost use Rattle.cf_session.specs.SessionMachine.{Says, PassesPong, Closes};
ghost use Rattle.cf_session.specs.Shown.{answer_kind, asked_publish, shown_action, shown_answer};

use crate::action::{Action, Answer, Publish};
use cf_presence::Stats;
use cf_protocol::{CloseCode, ErrorCode, Position};
use std::collections::BTreeMap;

/// What carries out the actions of one session: a hub, the streams, presence, and what the client is sent. It has a method for
/// each action; where a call is refused it answers the error code that the command's reply has. A stream is asked for only where
/// its namespace is set up.
pub trait CommandExecutor {
    ghost use Rattle.std.specs.Prelude.{Option, Bool};
    ghost use Rattle.cf_protocol.specs.Settings.{NamespaceTable};
    ghost use Rattle.cf_session.specs.Calls.{Answer as Given};
    ghost use Rattle.cf_session.specs.Played.{IsReply};
    ghost use Rattle.cf_session.specs.SessionMachine.{Act};

    /// The namespaces that are set up.
    ghost namespaces: { Self → NamespaceTable };

    /// Whether the session is closed.
    ghost closed: { Self → Bool };

    /// From one state to another by an act, with this answer.
    ghost does: { Self → Act → Option Given → Self → Type 0 };

    /// Whether the session is closed: nothing more of it is carried out.
    fn is_closed(&self) -> bool
        ensures { result ≡ closed self.now };

    /// A new session of this user. The answer is the client's id.
    fn attach(&mut self, user: String) -> Result<String, ErrorCode>
        ensures does { Gives does self.old (call.Attach (string_bytes user)) (Answer.Attach result)
            self.new }
        ensures namespaces { namespaces self.new ≡ namespaces self.old };

    /// A subscription is begun for the command of this id.
    fn begin(&mut self, channel: &str, id: u32, since: Option<Position>) -> Result<(), ErrorCode>
        ensures does { Gives does self.old (call.Begin channel.now id since) (Answer.Begin result)
            self.new }
        ensures namespaces { namespaces self.new ≡ namespaces self.old };

    /// The channel's stream is read for the subscription that was begun, which gets what was read.
    fn read(&mut self, channel: &str, since: Option<Position>) -> Result<(), ErrorCode>
        requires { IsSome (settings_of (namespaces self.old) channel.now) }
        ensures does { Gives does self.old (call.Read channel.now since) (Answer.Read result)
            self.new }
        ensures namespaces { namespaces self.new ≡ namespaces self.old };

    /// The subscription is finished, by which the hub gives the reply.
    fn finish(&mut self, channel: String)
        ensures does { Gives does self.old (call.Finish (string_bytes channel)) Answer.Finish
            self.new }
        ensures namespaces { namespaces self.new ≡ namespaces self.old };

    /// The channel's subscription, if there is one, is left.
    fn leave(&mut self, channel: &str)
        ensures does { Gives does self.old (call.Leave channel.now) Answer.Leave self.new }
        ensures namespaces { namespaces self.new ≡ namespaces self.old };

    /// This is published.
    fn publish(&mut self, publish: Publish) -> Result<(), ErrorCode>
        requires { IsSome (settings_of (namespaces self.old) (string_bytes publish.channel)) }
        ensures does { Gives does self.old (asked_publish publish) (Answer.Publish result) self.new }
        ensures namespaces { namespaces self.new ≡ namespaces self.old };

    /// The channel's stream is listed, after `since` where it is there, and the reply with its publications is given for the
    /// command of this id.
    fn history(
        &mut self,
        channel: &str,
        id: u32,
        limit: i32,
        since: Option<Position>,
    ) -> Result<(), ErrorCode>
        requires { IsSome (settings_of (namespaces self.old) channel.now) }
        ensures does { Gives does self.old (call.History channel.now id limit since)
            (Answer.History result) self.new }
        ensures namespaces { namespaces self.new ≡ namespaces self.old };

    /// Who is there in the channel: the user of each client, by the client's id.
    fn presence(&mut self, channel: &str) -> Result<BTreeMap<String, String>, ErrorCode>
        ensures does { Gives does self.old (call.Presence channel.now) (Answer.Presence result)
            self.new }
        ensures namespaces { namespaces self.new ≡ namespaces self.old };

    /// How many are there in the channel.
    fn stats(&mut self, channel: &str) -> Stats
        ensures does { Gives does self.old (call.Stats channel.now) (Answer.Stats result) self.new }
        ensures namespaces { namespaces self.new ≡ namespaces self.old };

    /// This text, a reply that a session gives itself and that brings no publications, goes to the client.
    fn say(&mut self, text: String)
        requires { IsReply (string_bytes text) }
        ensures does { does self.old (Says (string_bytes text)) None self.new }
        ensures namespaces { namespaces self.new ≡ namespaces self.old };

    /// The client answered a ping.
    fn pong(&mut self)
        ensures does { does self.old PassesPong None self.new }
        ensures namespaces { namespaces self.new ≡ namespaces self.old };

    /// The session is to be closed with this code.
    fn close(&mut self, code: CloseCode)
        ensures does { does self.old (Closes code) None self.new }
        ensures namespaces { namespaces self.new ≡ namespaces self.old };
}

/// Carries out an action on a node, and answers it where it is a call.
pub fn act<N: CommandExecutor>(node: &mut N, action: Action) -> Option<Answer>
    requires stream { ActHasStream (N.namespaces node.old) (shown_action action) }
    ensures does { N.does node.old (shown_action action) (option_map shown_answer result) node.new }
    ensures kind { option_map answer_kind result ≡ asked_kind (shown_action action) }
    ensures namespaces { N.namespaces node.new ≡ N.namespaces node.old }
{
    match action {
        Action::Attach { user } => Some(Answer::Attach(node.attach(user))),
        Action::Begin { channel, id, since } => {
            Some(Answer::Begin(node.begin(channel.as_str(), id, since)))
        }
        Action::Read { channel, since } => Some(Answer::Read(node.read(channel.as_str(), since))),
        Action::Finish { channel } => {
            node.finish(channel);
            Some(Answer::Finish)
        }
        Action::Leave { channel } => {
            node.leave(channel.as_str());
            Some(Answer::Leave)
        }
        Action::Publish(publish) => Some(Answer::Publish(node.publish(publish))),
        Action::History {
            channel,
            id,
            limit,
            since,
        } => {
            let listed = node.history(channel.as_str(), id, limit, since);
            Some(Answer::History(listed))
        }
        Action::Presence { channel } => Some(Answer::Presence(node.presence(channel.as_str()))),
        Action::Stats { channel } => Some(Answer::Stats(node.stats(channel.as_str()))),
        Action::Say(text) => {
            node.say(text);
            None
        }
        Action::Pong => {
            node.pong();
            None
        }
        Action::Close(code) => {
            node.close(code);
            None
        }
    }
}
