//! What is next once a call was answered.
ghost use Rattle.std.specs.Prelude.{◌≡◌, ◌≤◌, List, None, Option, string_bytes};
ghost use Rattle.cf_protocol.specs.Codes.{code_of};
ghost use Rattle.cf_protocol.specs.Datum.{Who};
ghost use Rattle.cf_protocol.specs.Request.{Command};
ghost use Rattle.cf_protocol.specs.Shown.{shown_outcome};
ghost use Rattle.cf_session.specs.CommandScripts.{Tables, after_begin, after_read, frame_script};
ghost use Rattle.cf_session.specs.SessionMachine.{Todo, is_connected};
ghost use Rattle.cf_session.specs.Shown.{shown_answer};
ghost use Rattle.cf_session.specs.Standing.{AnswersAt, RepliesAt, refused_code, found_by, progress_at, work_at};

use crate::action::Answer;
use crate::stage::ScriptStage;
use cf_protocol::{ErrorCode, Outcome, Position};

/// The error with which a call was refused.
fn refused_with(answer: &Answer) -> Option<ErrorCode>
    ensures { result ≡ refused_code (shown_answer answer.now) }
{
    match answer {
        Answer::Attach(Err(code)) => Some(*code),
        Answer::Begin(Err(code)) => Some(*code),
        Answer::Read(Err(code)) => Some(*code),
        Answer::Publish(Err(code)) => Some(*code),
        Answer::History(Err(code)) => Some(*code),
        Answer::Presence(Err(code)) => Some(*code),
        _ => None,
    }
}

fn refused(id: u32, code: ErrorCode) -> ScriptStage
    ensures { result ≡ ScriptStage.Says id (Outcome.Failed (code_of code)) }
{
    ScriptStage::Says {
        id,
        outcome: Outcome::Failed { code: code.code() },
    }
}

/// What comes of the answer to a call that is no attach.
pub(crate) fn after_answer(stage: ScriptStage, answer: Answer) -> ScriptStage
    ensures goes { AnswersAt stage answer result }
    ensures work { work_at result ≤ work_at stage }
{
    match stage {
        ScriptStage::Beginning {
            id,
            read,
            channel,
            since,
        } => begun(id, read, channel, since, &answer),
        ScriptStage::Reading { id, channel } => was_read(id, channel, &answer),
        ScriptStage::Finishing => ScriptStage::Ready,
        ScriptStage::Losing { id, code } => refused(id, code),
        ScriptStage::Leaving { id } => ScriptStage::Says {
            id,
            outcome: Outcome::Unsubscribed,
        },
        ScriptStage::Calling { id, .. } => replied(id, answer),
        // No such call is out.
        _ => ScriptStage::Ready,
    }
}

/// The begin of a subscription was answered: its read is next.
fn begun(
    id: u32,
    read: String,
    channel: String,
    since: Option<Position>,
    answer: &Answer,
) -> ScriptStage
    ensures goes { (t : Tables) (ks : List Command) (who : Option Who)
        → progress_at t ks who result
        ≡ Todo (after_begin id (string_bytes read) (string_bytes channel) since
        (frame_script t ks who) (shown_answer answer.now)) }
    ensures work { work_at result ≤ 5 }
{
    match refused_with(answer) {
        Some(code) => refused(id, code),
        None => ScriptStage::Reads {
            id,
            read,
            channel,
            since,
        },
    }
}

/// The read of a subscription was answered: its finish is next, or its leave.
fn was_read(id: u32, channel: String, answer: &Answer) -> ScriptStage
    ensures goes { (t : Tables) (ks : List Command) (who : Option Who)
        → progress_at t ks who result
        ≡ Todo (after_read id (string_bytes channel) (frame_script t ks who)
        (shown_answer answer.now)) }
    ensures work { work_at result ≤ 3 }
{
    match refused_with(answer) {
        Some(code) => ScriptStage::Loses { id, channel, code },
        None => ScriptStage::Finishes { channel },
    }
}

/// Whether this is the result of a connect.
pub(crate) fn is_connected(outcome: &Outcome) -> bool
    ensures { result ≡ is_connected (shown_outcome outcome.now) }
{
    matches!(outcome, Outcome::Connected { .. })
}

/// The reply to a command of one call is next.
fn replied(id: u32, answer: Answer) -> ScriptStage
    ensures goes { RepliesAt id answer result }
    ensures work { work_at result ≤ 1 }
{
    match answer {
        Answer::Publish(Ok(())) => ScriptStage::Says {
            id,
            outcome: Outcome::Published,
        },
        Answer::Presence(Ok(users)) => ScriptStage::Says {
            id,
            outcome: Outcome::Present { users },
        },
        Answer::Stats(stats) => ScriptStage::Says {
            id,
            outcome: Outcome::Counted {
                clients: stats.clients,
                users: stats.users,
            },
        },
        Answer::Publish(Err(code)) => refused(id, code),
        Answer::History(Err(code)) => refused(id, code),
        Answer::Presence(Err(code)) => refused(id, code),
        other => other_answer(id, &other),
    }
}

/// An answer that has no result of its own.
fn other_answer(id: u32, answer: &Answer) -> ScriptStage
    requires { found_by (shown_answer answer.now) ≡ None }
    ensures goes { RepliesAt id answer.now result }
    ensures work { work_at result ≤ 1 }
{
    match refused_with(answer) {
        Some(code) => refused(id, code),
        None => ScriptStage::Ready,
    }
}
