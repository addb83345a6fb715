//! A client's text, carried out whole.
ghost use Rattle.std.specs.Prelude.{◌≡◌, true, false};
ghost use Rattle.cf_session.specs.Standing.{is_idle, met_refused_memory, tables_of, progress_of};
ghost use Rattle.cf_session.specs.Played.{Serves};

use crate::budget::Budget;
use crate::command_executor::CommandExecutor;
use crate::session::Session;
use crate::turn::{carry_on, hear_text};

/// Carries out a text of the client, until nothing is left to do or the node has closed the session.
pub fn serve_text<N: CommandExecutor>(session: &mut Session<'_>, node: &mut N, text: &str)
    requires idle { is_idle session.old ≡ true }
    requires stands { N.closed node.old ≡ false }
    requires tables { N.namespaces node.old ≡ (tables_of session.old).namespaces }
    // Unless memory was refused to the session, the node has played the script of the text.
    ensures serves { met_refused_memory session.new ≡ false →
        Serves N.closed N.does (tables_of session.old) (progress_of session.old) node.old text.now
        node.new (progress_of session.new) }
    ensures idle { N.closed node.new ≡ false → is_idle session.new ≡ true }
    ensures tables { tables_of session.new ≡ tables_of session.old }
    ensures namespaces { N.namespaces node.new ≡ N.namespaces node.old }
    ensures short { met_refused_memory session.old ≡ true → met_refused_memory session.new ≡ true }
{
    hear_text(session, text);
    while !carry_on(session, node, &mut Budget::new(usize::MAX)) {}
}
