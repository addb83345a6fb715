//! A client's text, carried out in as many turns as it takes.
ghost use Rattle.std.specs.Prelude.{ℕ, ◌≡◌, ◌≢◌, ◌<◌, ◌≤◌, ◌||◌, ◌==◌, true, false, Some, None};
ghost use Rattle.cf_session.specs.SessionMachine.{Progress, Does, HearsText, awaits};
ghost use Rattle.cf_session.specs.Shown.{shown_action};
ghost use Rattle.cf_session.specs.Standing.{is_idle, met_refused_memory, tables_of, progress_of, work_of};
ghost use Rattle.cf_session.specs.Played.{Next, LeadsOn, asked_kind, ActHasStream, AskStreams};
ghost use Rattle.cf_session.specs.Turn.{CanGoOn, StaysSetUp, DoesAct, Spends, units_left};

use crate::action::Action;
use crate::budget::{Budget, cost_of};
use crate::command_executor::{CommandExecutor, act};
use crate::laws::frames_have_streams;
use crate::session::Session;

/// Hears a text of the client: its script is under way then, and nothing of it is carried out.
pub fn hear_text(session: &mut Session<'_>, text: &str)
    requires { is_idle session.old ≡ true }
    // Unless memory was refused to the session.
    ensures hears { met_refused_memory session.new ≡ false →
        HearsText (tables_of session.old) (progress_of session.old) text.now
        (progress_of session.new) }
    ensures ready { CanGoOn session.new }
    ensures keeps { StaysSetUp session.old session.new }
{
    frames_have_streams();
    session.on_text(text);
}

/// Carries out what is under way, until the session is idle, the node has closed it, or the budget is spent. Whether the session
/// is idle or closed. Before each action the node is asked whether the session is closed, and a unit has to be left; so a call
/// with units left does at least one action, or is done.
pub fn carry_on<N: CommandExecutor>(
    session: &mut Session<'_>,
    node: &mut N,
    budget: &mut Budget,
) -> bool
    requires tables { N.namespaces node.old ≡ (tables_of session.old).namespaces }
    requires ready { CanGoOn session.old }
    // Unless memory was refused to the session, its script was gone along.
    ensures leads { met_refused_memory session.new ≡ false →
        LeadsOn N.closed N.does (progress_of session.old) node.old (progress_of session.new)
        node.new }
    ensures done { result ≡ (N.closed node.new || is_idle session.new) }
    ensures spends { Spends N.closed N.does node.old (units_left budget.old) node.new
        (units_left budget.new) }
    ensures spent { result ≡ false → units_left budget.new ≡ 0 }
    ensures work { result ≡ false → units_left budget.old ≢ 0
        → work_of session.new < work_of session.old }
    ensures ready { CanGoOn session.new }
    ensures keeps { StaysSetUp session.old session.new }
    ensures namespaces { N.namespaces node.new ≡ N.namespaces node.old }
{
    while !node.is_closed() && !session.is_idle() {
        if budget.is_spent() {
            return false;
        }
        if !step(session, node, budget) {
            return true;
        }
    }
    true
}

/// Does what is next of a session, and pays for it. Whether something was: else the session is idle.
fn step<N: CommandExecutor>(session: &mut Session<'_>, node: &mut N, budget: &mut Budget) -> bool
    requires tables { N.namespaces node.old ≡ (tables_of session.old).namespaces }
    requires ready { CanGoOn session.old }
    requires stands { N.closed node.old ≡ false }
    requires left { units_left budget.old ≢ 0 }
    ensures leads { met_refused_memory session.new ≡ false →
        LeadsOn N.closed N.does (progress_of session.old) node.old (progress_of session.new)
        node.new }
    ensures spends { (n : N) → (units : ℕ)
        → Spends N.closed N.does n units node.old (units_left budget.old)
        → Spends N.closed N.does n units node.new (units_left budget.new) }
    ensures work { result ≡ true → work_of session.new < work_of session.old }
    ensures idle { result ≡ false → is_idle session.new ≡ true }
    ensures ready { CanGoOn session.new }
    ensures keeps { StaysSetUp session.old session.new }
    ensures namespaces { N.namespaces node.new ≡ N.namespaces node.old }
{
    frames_have_streams();
    let Some(action) = session.next_action() else {
        return false;
    };
    budget.spend(cost_of(&action));
    carry_out(session, node, action);
    true
}

/// One action, and its answer where it is a call.
fn carry_out<N: CommandExecutor>(session: &mut Session<'_>, node: &mut N, action: Action)
    requires kind { asked_kind (shown_action action) ≡ awaits (progress_of session.old) }
    requires stream { ActHasStream (N.namespaces node.old) (shown_action action) }
    requires asks { AskStreams (N.namespaces node.old) (progress_of session.old) }
    ensures next { (p : Progress)
        → Does p (Some (shown_action action)) (progress_of session.old)
        → met_refused_memory session.new ≡ false
        → Next N.closed N.does p (progress_of session.new) node.old node.new }
    ensures does { DoesAct N.does node.old (shown_action action) node.new }
    ensures awaits { awaits (progress_of session.new) ≡ None }
    ensures asks { AskStreams (N.namespaces node.old) (progress_of session.new) }
    ensures keeps { StaysSetUp session.old session.new }
    ensures namespaces { N.namespaces node.new ≡ N.namespaces node.old }
    ensures work { work_of session.new ≤ work_of session.old }
{
    if let Some(answer) = act(node, action) {
        session.answered(answer);
    }
}
