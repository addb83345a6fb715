//! What is published.
ghost use Rattle.std.specs.Prelude.{◌≡◌, IfOk, IfErr};
ghost use Rattle.cf_protocol.specs.Regular.{IsBody};
ghost use Rattle.cf_schedule.specs.ScheduleLine.{IsData};
ghost use Rattle.cf_schedule.specs.LineRead.{Refused, IsNoData};

use crate::event::EventFault;
use cf_json::{compact, compact_reads_back, depth, scan};
use std::alloc::Global;
use std::marker::Model;

/// How deep the arrays and objects of published data may nest.
pub const MAX_BODY_DEPTH: usize = 60;

/// Published data: one JSON value of depth at most 60, in compact text.
#[derive(Drop)]
pub struct Body {
    text: String,
}

impl Model for Body {
    ghost use Rattle.std.specs.Prelude.{ℕ, List, string_bytes};
    ghost use Rattle.cf_protocol.specs.Regular.{IsBody};

    ghost Value = { List ℕ };

    ghost view = { λ b. string_bytes b.text };

    ghost invariant = { λ b. IsBody (string_bytes b.text) };
}

impl Body {
    /// The compact text of the one JSON value that a text holds, with white space around it. Unreadable if there is
    /// none of depth at most 60.
    pub fn read(alloc: Global, text: &str) -> Result<Body, EventFault>
        ensures ok { IfOk result (IsData text.now) }
        ensures err { IfErr result (λ e. Refused e (IsNoData text.now)) }
    {
        let Ok(span) = scan(text) else {
            return Err(EventFault::Unreadable);
        };
        if depth(text, span) > MAX_BODY_DEPTH {
            return Err(EventFault::Unreadable);
        }
        compact_reads_back();
        match compact(alloc, text, span) {
            Ok(text) => Ok(Body { text }),
            Err(_) => Err(EventFault::Memory),
        }
    }

    /// The compact text.
    pub fn as_str(&self) -> &str
        ensures characters { result.now ≡ self.now }
        ensures body { IsBody self.now }
    {
        self.text.as_str()
    }
}
