// Frames: one value after another.
ghost use Rattle.std.specs.Prelude.{◌≡◌, ◌≢◌, ◌<◌, IfOk, IfErr, List, [], map, length};
ghost use Rattle.std.specs.List.{AllZip};
ghost use Rattle.cf_json.specs.Grammar.{Tree, Place};
ghost use Rattle.cf_json.specs.Spans.{IsAt, span_at, max_depth};
ghost use Rattle.cf_json.specs.Frame.{Values, IsFrame, RefusesFrame};
ghost use Rattle.cf_json.specs.Reading.{numeric, apart_end};
ghost use Rattle.cf_json.specs.Rest.{rest_of};

use crate::document::MAX_DEPTH;
use crate::fault::Fault;
use crate::span::Span;
use crate::stop::{Stop, fault_of};
use crate::token::{after_space, is_digit};
use crate::value::value_end;
use std::alloc::Global;

// Whether a byte of a number stands first.
#[tactic(auto, unfolding(crate::specs::Reading::numeric, crate::specs::Bytes::is_exponent_mark))]
fn numeric(text: &[u8]) -> bool
    ensures { result ≡ numeric text.now }
{
    match text.split_first() {
        Some((byte, _)) => {
            is_digit(*byte) || *byte == b'-' || *byte == b'.' || *byte == b'e' || *byte == b'E'
        }
        None => false,
    }
}

/// What follows the value at the front. If it is a number no other one begins at once.
#[tactic(auto, unfolding(crate::specs::Reading::apart_end))]
fn apart_end(text: &[u8]) -> Result<&[u8], Stop>
    ensures same { rest_of result ≡ apart_end max_depth text.now }
    ensures shorter { IfOk result (λ r. length r.now < length text.now) }
{
    let after = value_end(MAX_DEPTH, text)?;
    if numeric(text) && numeric(after) {
        return Err(Stop::NotJson(after.len()));
    }
    Ok(after)
}

/// The values of a frame, in order: one or more, with white space or none around each, but for two numbers side by side.
///
/// `NotJson` says that the text is no frame, and `TooDeep` that a frame that it is has a value that nests deeper than
/// [`MAX_DEPTH`](crate::MAX_DEPTH).
pub fn split_frame(alloc: Global, text: &str) -> Result<Vec<Span>, Fault>
    ensures found { IfOk result
        (λ v. (ts : List Tree) × (places : List Place) × (ts ≢ []) × Values ts places text.now
        × (v.items ≡ map (span_at text.now) places)
        × AllZip (λ s t. IsAt text.now t s) v.items ts) }
    ensures only { IfOk result
        (λ v. (ts : List Tree) → IsFrame text.now ts
        → AllZip (λ s t. IsAt text.now t s) v.items ts) }
    ensures faults { IfErr result (RefusesFrame text.now) }
{
    let bytes = text.as_bytes();
    let mut found = Vec::new(alloc);
    let mut rest = after_space(bytes);
    'values: loop {
        let after = match apart_end(rest) {
            Ok(after) => after,
            Err(stop) => return Err(fault_of(bytes.len(), stop)),
        };
        found.push(Span {
            from: bytes.len() - rest.len(),
            to: bytes.len() - after.len(),
        })?;
        rest = after_space(after);
        if rest.is_empty() {
            return Ok(found);
        }
    }
}
