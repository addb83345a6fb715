//! One key of several.
ghost use Rattle.cf_protocol.specs.Reading.{AreMembers, Chooses, OfFields, the_key};

use crate::fault::ReadFault;
use crate::read::members::Members;
use cf_json::Span;

/// What the one of these keys that has a value stands for, and where its value stands.
pub fn only_key<K: Copy>(members: &Members<'_>, keys: &[(&str, K)]) -> Result<(K, Span), ReadFault>
    requires { AreMembers members.now }
    ensures { OfFields members.now (λ fs. Chooses members.now.text.now result (the_key keys.now fs)) }
{
    let mut only = None;
    for entry in keys {
        let Some(span) = members.present(entry.0) else {
            continue;
        };
        if only.is_some() {
            return Err(ReadFault::Bad);
        }
        only = Some((entry.1, span));
    }
    only.ok_or(ReadFault::Bad)
}
