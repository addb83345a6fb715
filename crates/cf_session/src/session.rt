//! What a session does for its client's commands.
ghost use Rattle.std.specs.Prelude.{◌≡◌, ◌+◌, ◌<◌, ◌≤◌, Option, Some, None, [], true, false, IsSome, option_copied, string_bytes, length, map, IfErr, IfOk, OnOk, OnErr};
ghost use Rattle.cf_protocol.specs.Checks.{longest_text};
ghost use Rattle.cf_protocol.specs.Codes.{code_of};
ghost use Rattle.cf_protocol.specs.declared.codes.CloseCode.TheVariants as close;
ghost use Rattle.cf_protocol.specs.Datum.{Who};
ghost use Rattle.cf_protocol.specs.Frame.{IsCommands};
ghost use Rattle.cf_protocol.specs.Settings.{user_of};
ghost use Rattle.cf_protocol.specs.Shown.{shown_command, shown_outcome, shown_request};
ghost use Rattle.cf_session.specs.Calls as call;
ghost use Rattle.cf_session.specs.CommandScripts.{IsUnreadable, granted, replies, after_attach, after_begin};
ghost use Rattle.cf_session.specs.Script as script;
ghost use Rattle.cf_session.specs.SessionMachine.{Todo, Out, Calls, Closes, GoesOn, awaits, reply_text};
ghost use Rattle.cf_session.specs.Shown.{shown_action, shown_answer, answer_kind};
ghost use Rattle.cf_session.specs.Standing.{tables_of, tokens_in, commands_left, rest_of, rest_with, progress_at, progress_of, is_idle, is_over, met_refused_memory, refusals, work_at, work_of, Keeps, HearsFrame, ActsNext, TakesAnswer, ActsOn, Begins, script_from, opening_script, Falls};
ghost use Rattle.cf_session.specs.declared.kind.CommandKind.TheVariants as kind;

use crate::action::{Action, Answer, Publish};
use crate::kind::CommandKind;
use crate::refusal::refusal_of;
use crate::replied::{after_answer, is_connected};
use crate::stage::ScriptStage;
use cf_protocol::{
    CloseCode, Command, Data, ErrorCode, Info, LONGEST_TEXT, Namespaces, Outcome, Outgoing,
    Position, ReadFault, Request, Tokens, read_commands, write_reply,
};
use std::alloc::{AllocError, Global};
use std::collections::VecDeque;
use std::mem;

/// One session of a client: it reads the client's texts, and says what is to be done for them, one action after another.
pub struct Session<'a> {
    namespaces: &'a Namespaces,
    /// None: only the empty token is known.
    tokens: Option<&'a Tokens>,
    client: Option<Info>,
    frame: VecDeque<Command>,
    stage: ScriptStage,
    is_short: bool,
    /// How many requests for memory the last call had refused.
    refusals: u8,
    alloc: Global,
}

// By field, so that what owns a session isn't proved to drop each part of its parts once more.
impl Drop for Session<'_> {
    fn drop(self) {
        let Session {
            namespaces: _,
            tokens: _,
            client: _,
            frame: _,
            stage: _,
            is_short: _,
            refusals: _,
            alloc: _,
        } = self;
    }
}

impl<'a> Session<'a> {
    /// A session that waits for its client's connect.
    pub fn new(alloc: Global, namespaces: &'a Namespaces, tokens: &'a Tokens) -> Session<'a>
        ensures progress { progress_of result ≡ Todo (script.Served None) }
        ensures tables { tables_of result
            ≡ record { namespaces = namespaces.now; tokens = tokens.now } }
        ensures idle { is_idle result ≡ true }
        ensures short { met_refused_memory result ≡ false }
    {
        Session::begun(alloc, namespaces, Some(tokens))
    }

    /// A session that waits for its client's connect, and to which no token but the empty one is known.
    pub fn without_tokens(alloc: Global, namespaces: &'a Namespaces) -> Session<'a>
        ensures progress { progress_of result ≡ Todo (script.Served None) }
        ensures tables { tables_of result ≡ record { namespaces = namespaces.now; tokens = [] } }
        ensures idle { is_idle result ≡ true }
        ensures short { met_refused_memory result ≡ false }
    {
        Session::begun(alloc, namespaces, None)
    }

    fn begun(alloc: Global, namespaces: &'a Namespaces, tokens: Option<&'a Tokens>) -> Session<'a>
        ensures progress { progress_of result ≡ Todo (script.Served None) }
        ensures tables { tables_of result
            ≡ record { namespaces = namespaces.now; tokens = tokens_in tokens.entry } }
        ensures idle { is_idle result ≡ true }
        ensures short { met_refused_memory result ≡ false }
    {
        Session {
            namespaces,
            tokens,
            client: None,
            frame: VecDeque::new(alloc),
            stage: ScriptStage::Ready,
            is_short: false,
            refusals: 0,
            alloc,
        }
    }

    /// Whether all is done that its texts asked for, so that it may hear another.
    pub fn is_idle(&self) -> bool
        ensures { result ≡ is_idle self.now }
    {
        match &self.stage {
            ScriptStage::Ready => self.frame.is_empty(),
            ScriptStage::Closed => true,
            _ => false,
        }
    }

    fn is_closed(&self) -> bool
        ensures { result ≡ is_over self.now.stage }
    {
        match &self.stage {
            ScriptStage::Closed => true,
            _ => false,
        }
    }

    /// Whether one of its calls met a refused request for memory.
    pub fn short(&self) -> bool
        ensures { result ≡ met_refused_memory self.now }
    {
        self.is_short
    }

    /// The call that is out, by its kind. None: the session does something by itself, or is idle.
    pub fn awaited(&self) -> Option<CommandKind>
        ensures { result ≡ awaits (progress_of self.now) }
    {
        match &self.stage {
            ScriptStage::Attaching { .. } => Some(CommandKind::Attach),
            ScriptStage::Beginning { .. } => Some(CommandKind::Begin),
            ScriptStage::Reading { .. } => Some(CommandKind::Read),
            ScriptStage::Finishing => Some(CommandKind::Finish),
            ScriptStage::Losing { .. } => Some(CommandKind::Leave),
            ScriptStage::Leaving { .. } => Some(CommandKind::Leave),
            ScriptStage::Calling { kind, .. } => Some(*kind),
            ScriptStage::Ready => None,
            ScriptStage::Reads { .. } => None,
            ScriptStage::Finishes { .. } => None,
            ScriptStage::Loses { .. } => None,
            ScriptStage::Says { .. } => None,
            ScriptStage::Closes(_) => None,
            ScriptStage::Closed => None,
        }
    }

    /// Hears a text of its client, which is a frame of commands. A text over 65,536 bytes, and one that is no frame of commands,
    /// closes with 3501; one for whose reading memory is refused with 3004. A session that is closed passes it over.
    pub fn on_text(&mut self, text: &str)
        requires { is_idle self.old ≡ true }
        ensures hears { HearsFrame self.old text.now self.new }
        ensures keeps { Keeps self.old self.new }
    {
        let was_short = self.is_short;
        self.refusals = 0;
        self.hear(text);
        self.is_short = was_short || self.refusals != 0;
    }

    fn hear(&mut self, text: &str)
        requires idle { is_idle self.old ≡ true }
        requires fresh { refusals self.old ≡ 0 }
        ensures hears { HearsFrame self.old text.now self.new }
        ensures tables { tables_of self.new ≡ tables_of self.old }
    {
        if self.is_closed() {
            return;
        }
        match frame_of(self.alloc, text) {
            Ok(commands) => self.frame = VecDeque::from_vec(commands),
            Err(ReadFault::Bad) => self.stage = ScriptStage::Closes(CloseCode::BadRequest),
            Err(ReadFault::Memory) => {
                self.refusals = 1;
                self.stage = ScriptStage::Closes(CloseCode::InternalError);
            }
        }
    }

    /// What is to be done next. None: an answer is awaited, or the session is idle.
    pub fn next_action(&mut self) -> Option<Action>
        ensures acts { ActsNext self.old result self.new }
        ensures keeps { Keeps self.old self.new }
        ensures work { IsSome result → work_of self.new < work_of self.old }
        ensures idle { result ≡ None → awaits (progress_of self.new) ≡ None
            → is_idle self.new ≡ true }
    {
        let was_short = self.is_short;
        self.refusals = 0;
        let action = self.act();
        self.is_short = was_short || self.refusals != 0;
        action
    }

    fn act(&mut self) -> Option<Action>
        requires { refusals self.old ≡ 0 }
        ensures acts { ActsNext self.old result self.new }
        ensures tables { tables_of self.new ≡ tables_of self.old }
        ensures work { IsSome result → work_of self.new < work_of self.old }
        ensures idle { result ≡ None → awaits (progress_of self.new) ≡ None
            → is_idle self.new ≡ true }
    {
        let (stage, action) = match mem::replace(&mut self.stage, ScriptStage::Ready) {
            ScriptStage::Ready => return self.next_command(),
            ScriptStage::Says { id, outcome } => return Some(self.say(id, outcome)),
            ScriptStage::Closes(code) => (ScriptStage::Closed, Some(Action::Close(code))),
            ScriptStage::Reads {
                id,
                read,
                channel,
                since,
            } => {
                let action = Action::Read {
                    channel: read,
                    since,
                };
                (ScriptStage::Reading { id, channel }, Some(action))
            }
            ScriptStage::Finishes { channel } => (
                ScriptStage::Finishing,
                Some(Action::Finish { channel }),
            ),
            ScriptStage::Loses { id, channel, code } => {
                (
                    ScriptStage::Losing { id, code },
                    Some(Action::Leave { channel }),
                )
            }
            waits => (waits, None),
        };
        self.stage = stage;
        action
    }

    /// The call that is out was answered; the answer is one to this call.
    pub fn answered(&mut self, answer: Answer)
        requires { awaits (progress_of self.old) ≡ Some (answer_kind answer) }
        ensures goes { TakesAnswer self.old answer self.new }
        ensures keeps { Keeps self.old self.new }
        ensures work { work_of self.new ≤ work_of self.old }
    {
        let was_short = self.is_short;
        self.refusals = 0;
        self.take(answer);
        self.is_short = was_short || self.refusals != 0;
    }

    fn take(&mut self, answer: Answer)
        requires kind { awaits (progress_of self.old) ≡ Some (answer_kind answer) }
        requires fresh { refusals self.old ≡ 0 }
        ensures goes { TakesAnswer self.old answer self.new }
        ensures tables { tables_of self.new ≡ tables_of self.old }
        ensures work { work_of self.new ≤ work_of self.old }
    {
        match mem::replace(&mut self.stage, ScriptStage::Ready) {
            ScriptStage::Attaching { id, user } => self.stage = self.attached(id, user, answer),
            stage => self.stage = after_answer(stage, answer),
        }
    }

    /// What comes of the answer to the connect's attach: its client is known from now on.
    fn attached(&mut self, id: u32, user: String, answer: Answer) -> ScriptStage
        requires fresh { refusals self.old ≡ 0 }
        ensures goes { GoesOn (shown_answer answer)
            (Out kind.Attach (after_attach id (string_bytes user) (rest_with self.old)))
            (progress_at (tables_of self.new) (commands_left self.new) self.new.client result)
            (refusals self.new) }
        ensures tables { tables_of self.new ≡ tables_of self.old }
        ensures frame { self.new.frame ≡ self.old.frame }
        ensures work { work_at result ≤ 1 }
    {
        let Answer::Attach(Ok(client)) = answer else {
            return ScriptStage::Closes(CloseCode::InternalError);
        };
        match client.clone() {
            Ok(copy) => {
                self.client = Some(Info { user, client });
                ScriptStage::Says {
                    id,
                    outcome: Outcome::Connected { client: copy },
                }
            }
            Err(_) => {
                self.refusals = 1;
                ScriptStage::Closes(CloseCode::InternalError)
            }
        }
    }

    /// Goes on to the next command that has something done.
    fn next_command(&mut self) -> Option<Action>
        requires ready { self.old.stage ≡ ScriptStage.Ready }
        requires fresh { refusals self.old ≡ 0 }
        ensures acts { ActsOn self.old (rest_of self.old) result self.new }
        ensures tables { tables_of self.new ≡ tables_of self.old }
        ensures work { IsSome result → work_of self.new < work_of self.old }
        ensures idle { result ≡ None → is_idle self.new ≡ true }
    {
        while let Some(command) = self.frame.pop_front() {
            if let Some(action) = self.start(command) {
                return Some(action);
            }
        }
        // A client that says nothing keeps no room for its next frame.
        self.frame = VecDeque::new(self.alloc);
        None
    }

    /// Begins a command. None: there is nothing to do for it.
    fn start(&mut self, command: Command) -> Option<Action>
        requires ready { self.old.stage ≡ ScriptStage.Ready }
        requires fresh { refusals self.old ≡ 0 }
        ensures acts { Begins self.old (script_from self.old (shown_command command)) result
            self.new }
        ensures tables { tables_of self.new ≡ tables_of self.old }
        ensures frame { self.new.frame ≡ self.old.frame }
        ensures work { work_at self.new.stage < 7 }
    {
        let Command { id, request } = command;
        if self.client.is_none() {
            return Some(self.open(id, request));
        }
        if let Some(code) = refusal_of(self.namespaces, &request) {
            let outcome = Outcome::Failed { code: code.code() };
            return Some(self.say(id, outcome));
        }
        match self.grant(id, request) {
            Ok(action) => action,
            Err(_) => Some(self.refuse_for_memory(id)),
        }
    }

    /// The first command, which is to be the connect.
    fn open(&mut self, id: u32, request: Request) -> Action
        requires ready { self.old.stage ≡ ScriptStage.Ready }
        requires fresh { refusals self.old ≡ 0 }
        ensures acts { ActsOn self.old (opening_script self.old id (shown_request request))
            (Some result) self.new }
        ensures tables { tables_of self.new ≡ tables_of self.old }
        ensures frame { self.new.frame ≡ self.old.frame }
        ensures work { work_at self.new.stage < 7 }
    {
        let Request::Connect { token } = request else {
            return self.close(CloseCode::BadRequest);
        };
        let Some(user) = user_in(self.tokens, token.as_str()) else {
            return self.close(CloseCode::InvalidToken);
        };
        match self.attach(id, user) {
            Ok(action) => action,
            Err(_) => self.give_up(),
        }
    }

    fn attach(&mut self, id: u32, user: &str) -> Result<Action, AllocError>
        ensures act { IfOk result (λ a. shown_action a ≡ Calls (call.Attach user.now)) }
        ensures goes { OnOk result
            (progress_of self.new
            ≡ Out kind.Attach (after_attach id user.now (rest_with self.old))) }
        ensures work { OnOk result (work_at self.new.stage ≡ 2) }
        ensures tables { tables_of self.new ≡ tables_of self.old }
        ensures frame { self.new.frame ≡ self.old.frame }
        ensures refusals { refusals self.new ≡ refusals self.old }
    {
        let kept = String::from_str(self.alloc, user)?;
        let user = String::from_str(self.alloc, user)?;
        let waits = ScriptStage::Attaching { id, user: kept };
        Ok(self.call(waits, Action::Attach { user }))
    }

    /// A command of a connected client that passed its checks.
    fn grant(&mut self, id: u32, request: Request) -> Result<Option<Action>, AllocError>
        requires ready { self.old.stage ≡ ScriptStage.Ready }
        requires fresh { refusals self.old ≡ 0 }
        ensures acts { (who : Who) → self.old.client ≡ Some who
            → IfOk result
            (λ r. Begins self.old
            (granted who id (shown_request request) (rest_of self.old)) r self.new) }
        ensures err { OnErr result (self.new.stage ≡ ScriptStage.Ready) }
        ensures client { OnErr result (self.new.client ≡ self.old.client) }
        ensures refusals { OnErr result (refusals self.new ≡ 0) }
        ensures tables { tables_of self.new ≡ tables_of self.old }
        ensures frame { self.new.frame ≡ self.old.frame }
        ensures work { OnOk result (work_at self.new.stage < 7) }
    {
        match request {
            Request::Subscribe { channel, since } => self.begin(id, channel, &since),
            Request::Unsubscribe { channel } => {
                let action = Action::Leave { channel };
                Ok(Some(self.call(ScriptStage::Leaving { id }, action)))
            }
            Request::Publish { channel, key, body } => self.publish(id, channel, key, body),
            Request::Presence { channel } => {
                let action = Action::Presence { channel };
                let kind = CommandKind::Presence;
                Ok(Some(self.call(ScriptStage::Calling { id, kind }, action)))
            }
            Request::PresenceStats { channel } => {
                let action = Action::Stats { channel };
                let kind = CommandKind::Stats;
                Ok(Some(self.call(ScriptStage::Calling { id, kind }, action)))
            }
            Request::History {
                channel,
                limit,
                since,
                ..
            } => {
                let action = Action::History {
                    channel,
                    id,
                    limit,
                    since,
                };
                let kind = CommandKind::History;
                Ok(Some(self.call(ScriptStage::Calling { id, kind }, action)))
            }
            Request::Ping => Ok(Some(self.say(id, Outcome::Pinged))),
            Request::Pong => Ok(Some(Action::Pong)),
            Request::Send => Ok(None),
            Request::Other => Ok(None),
            Request::Connect { .. } => Ok(Some(self.close(CloseCode::BadRequest))),
        }
    }

    /// A publication of the client's. A missing body is the empty text.
    fn publish(
        &mut self,
        id: u32,
        channel: String,
        key: String,
        body: Data,
    ) -> Result<Option<Action>, AllocError>
        requires ready { self.old.stage ≡ ScriptStage.Ready }
        requires fresh { refusals self.old ≡ 0 }
        ensures acts { (who : Who) → self.old.client ≡ Some who
            → IfOk result
            (λ r. Begins self.old
            (granted who id (shown_request (Request.Publish channel key body)) (rest_of self.old))
            r self.new) }
        ensures err { OnErr result (self.new.stage ≡ ScriptStage.Ready) }
        ensures client { OnErr result (self.new.client ≡ self.old.client) }
        ensures refusals { OnErr result (refusals self.new ≡ 0) }
        ensures tables { tables_of self.new ≡ tables_of self.old }
        ensures frame { self.new.frame ≡ self.old.frame }
        ensures work { OnOk result (work_at self.new.stage < 7) }
    {
        let info = match &self.client {
            Some(info) => info.copied()?,
            None => return Ok(None),
        };
        let body = match body {
            Data::Body(text) => text,
            Data::Absent | Data::TooDeep => String::new(self.alloc),
        };
        let action = Action::Publish(Publish {
            channel,
            key,
            body,
            info,
        });
        let kind = CommandKind::Publish;
        Ok(Some(self.call(ScriptStage::Calling { id, kind }, action)))
    }

    /// The client's node is asked for something; the session stands here until the answer.
    fn call(&mut self, waits: ScriptStage, action: Action) -> Action
        ensures action { result ≡ action }
        ensures goes { progress_of self.new
            ≡ progress_at (tables_of self.old) (commands_left self.old) self.old.client waits }
        ensures refusals { refusals self.new ≡ refusals self.old }
        ensures tables { tables_of self.new ≡ tables_of self.old }
        ensures frame { self.new.frame ≡ self.old.frame }
        ensures work { work_at self.new.stage ≡ work_at waits }
    {
        self.stage = waits;
        action
    }

    /// A subscription is begun.
    fn begin(
        &mut self,
        id: u32,
        channel: String,
        since: &Option<Position>,
    ) -> Result<Option<Action>, AllocError>
        requires ready { self.old.stage ≡ ScriptStage.Ready }
        requires fresh { refusals self.old ≡ 0 }
        ensures acts { (who : Who) → IfOk result
            (λ r. Begins self.old
            (granted who id (shown_request (Request.Subscribe channel since.now)) (rest_of self.old))
            r self.new) }
        ensures err { OnErr result (self.new.stage ≡ ScriptStage.Ready) }
        ensures client { OnErr result (self.new.client ≡ self.old.client) }
        ensures refusals { OnErr result (refusals self.new ≡ 0) }
        ensures tables { tables_of self.new ≡ tables_of self.old }
        ensures frame { self.new.frame ≡ self.old.frame }
        ensures work { OnOk result (work_at self.new.stage < 7) }
    {
        let read = channel.clone()?;
        let kept = channel.clone()?;
        let waits = ScriptStage::Beginning {
            id,
            read,
            channel: kept,
            since: *since,
        };
        let action = Action::Begin {
            channel,
            id,
            since: *since,
        };
        Ok(Some(self.call(waits, action)))
    }

    /// The reply to a command.
    fn say(&mut self, id: u32, outcome: Outcome) -> Action
        requires ready { self.old.stage ≡ ScriptStage.Ready }
        requires fresh { refusals self.old ≡ 0 }
        ensures acts { ActsOn self.old
            (script.Say id (shown_outcome outcome) (rest_of self.old)) (Some result) self.new }
        ensures tables { tables_of self.new ≡ tables_of self.old }
        ensures frame { self.new.frame ≡ self.old.frame }
        ensures work { work_at self.new.stage ≡ 0 }
    {
        let connects = is_connected(&outcome);
        match reply_text(self.alloc, id, outcome) {
            Ok(text) => Action::Say(text),
            Err(_) if connects => self.give_up(),
            Err(_) => self.refuse_for_memory(id),
        }
    }

    /// Memory was refused to a connect: the session is closed.
    fn give_up(&mut self) -> Action
        ensures act { shown_action result ≡ Closes close.InternalError }
        ensures progress { progress_of self.new ≡ Todo script.Over }
        ensures tables { tables_of self.new ≡ tables_of self.old }
        ensures frame { self.new.frame ≡ self.old.frame }
        ensures refusals { refusals self.new ≡ 1 }
        ensures work { work_at self.new.stage ≡ 0 }
    {
        self.refusals = 1;
        self.close(CloseCode::InternalError)
    }

    /// Memory was refused: the command is answered as one that failed within. Where memory for that is refused too the session is
    /// closed.
    fn refuse_for_memory(&mut self, id: u32) -> Action
        requires { self.old.stage ≡ ScriptStage.Ready }
        ensures falls { Falls id (rest_of self.old) (Some (shown_action result))
            (progress_of self.new) (refusals self.new) }
        ensures tables { tables_of self.new ≡ tables_of self.old }
        ensures frame { self.new.frame ≡ self.old.frame }
        ensures work { work_at self.new.stage ≡ 0 }
    {
        self.refusals = 1;
        let outcome = Outcome::Failed {
            code: ErrorCode::Internal.code(),
        };
        match reply_text(self.alloc, id, outcome) {
            Ok(failed) => Action::Say(failed),
            Err(_) => {
                self.refusals = 2;
                self.close(CloseCode::InternalError)
            }
        }
    }

    fn close(&mut self, code: CloseCode) -> Action
        ensures act { shown_action result ≡ Closes code }
        ensures progress { progress_of self.new ≡ Todo script.Over }
        ensures tables { tables_of self.new ≡ tables_of self.old }
        ensures frame { self.new.frame ≡ self.old.frame }
        ensures refusals { refusals self.new ≡ refusals self.old }
        ensures work { work_at self.new.stage ≡ 0 }
    {
        self.stage = ScriptStage::Closed;
        Action::Close(code)
    }
}

/// The user that a token connects. Where no tokens are set up, only the empty one connects, and the empty user.
fn user_in<'a>(tokens: Option<&'a Tokens>, token: &str) -> Option<&'a str>
    ensures { option_copied result ≡ user_of (tokens_in tokens.entry) token.now }
{
    let Some(tokens) = tokens else {
        if token.is_empty() {
            return Some("");
        }
        return None;
    };
    tokens.user(token)
}

/// The commands of a client's text. One that is too long is bad.
fn frame_of(alloc: Global, text: &str) -> Result<Vec<Command>, ReadFault>
    ensures found { IfOk result (λ cs. length text.now ≤ longest_text) }
    ensures frame { IfOk result (λ cs. IsCommands text.now (map shown_command cs.items)) }
    ensures bad { IfErr result (λ fault. fault ≡ ReadFault.Bad → IsUnreadable text.now) }
{
    if text.len() > LONGEST_TEXT {
        return Err(ReadFault::Bad);
    }
    read_commands(alloc, text)
}

/// The text of the reply to a command.
pub fn reply_text(alloc: Global, id: u32, outcome: Outcome) -> Result<String, AllocError>
    ensures { IfOk result (λ text. string_bytes text ≡ reply_text id (shown_outcome outcome)) }
{
    write_reply(alloc, &Outgoing::Answer { id, outcome })
}
