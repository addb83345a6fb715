// The members of objects.
ghost use Rattle.std.specs.Prelude.{◌≡◌, ◌⊎◌, ◌≤◌, IfOk, IfErr, List, [], length, drop, map, true, Some, option_map};
ghost use Rattle.std.specs.Bool.{OnTrue};
ghost use Rattle.std.specs.List.{AllZip, list_any};
ghost use Rattle.std.specs.Str.{bytes_eq};
ghost use Rattle.cf_json.specs.Grammar.{object, Parts, Place, depth};
ghost use Rattle.cf_json.specs.Reading.{text_end, key_end};
ghost use Rattle.cf_json.specs.declared.token.Within.TheVariants as Within;
ghost use Rattle.cf_json.specs.Members.{Fields, members_of, put_all, entries, entry_of, IsMember, NoEntries, NoMembers};
ghost use Rattle.cf_json.specs.Spans.{IsAt, Holds, max_depth};

use crate::document::MAX_DEPTH;
use crate::fault::Fault;
use crate::span::Span;
use crate::stop::Stop;
use crate::text::read_text;
use crate::token::{after_space, text_end};
use crate::value::{colon_end, value_end};
use std::alloc::Global;
use std::collections::BTreeSet;

/// What follows a key's closing quote, and the value behind the colon.
#[tactic(auto, unfolding(crate::specs::Reading::key_end))]
fn key_ends(text: &[u8]) -> Result<(&[u8], &[u8]), Stop>
    ensures ok { IfOk result
        (λ r. (text_end Within.Plain (drop 1 text.now) ≡ Ok r.0.now)
        × (key_end true text.now ≡ Ok r.1.now)) }
    ensures shorter { IfOk result
        (λ r. (length r.0.now ≤ length text.now) × (length r.1.now ≤ length text.now)) }
    ensures err { IfErr result
        (λ e. (text_end Within.Plain (drop 1 text.now) ≡ Err e) ⊎ (key_end true text.now ≡ Err e)) }
{
    let Some((quote, more)) = text.split_first() else {
        return Err(Stop::NotJson(0));
    };
    if *quote != b'"' {
        return Err(Stop::NotJson(text.len()));
    }
    let end = text_end(more)?;
    let value = colon_end(end)?;
    Ok((end, value))
}

// The members of an object in order, with those of a repeated key.
fn read_members(alloc: Global, text: &str, span: Span) -> Result<Vec<(String, Span)>, Fault>
    requires { (ps : Parts) × IsAt text.now (object ps) span }
    ensures ok { IfOk result (λ v. (ps : Parts) (places : List Place)
        → Holds true text.now span ps places → depth (object ps) ≤ max_depth
        → entries text.now [] ps places ≡ Some (map entry_of v.items)) }
    ensures err { IfErr result (NoEntries text.now span) }
{
    let bytes = text.as_bytes();
    let mut found = Vec::new(alloc);
    let (_, inside) = bytes.split_at(span.from + 1);
    let mut rest = after_space(inside);
    if let Some((first, _)) = rest.split_first()
        && *first == b'}'
    {
        return Ok(found);
    }
    'members: loop {
        let Ok((key_end, value)) = key_ends(rest) else {
            return Err(Fault::NotJson(span.from));
        };
        let key = read_text(
            alloc,
            text,
            Span {
                from: bytes.len() - rest.len(),
                to: bytes.len() - key_end.len(),
            },
        )?;
        let Ok(after) = value_end(MAX_DEPTH, value) else {
            return Err(Fault::NotJson(span.from));
        };
        found.push((
            key,
            Span {
                from: bytes.len() - value.len(),
                to: bytes.len() - after.len(),
            },
        ))?;
        let behind = after_space(after);
        let Some((next, more)) = behind.split_first() else {
            return Err(Fault::NotJson(span.from));
        };
        if *next == b'}' {
            return Ok(found);
        }
        rest = after_space(more);
    }
}

// Of the members with one key the last, in the order of these. They are gone through from the back.
fn last_standing(
    alloc: Global,
    mut members: Vec<(String, Span)>,
) -> Result<Vec<(String, Span)>, Fault>
    ensures ok { IfOk result (λ v. map entry_of v.items ≡ put_all [] (map entry_of members.items)) }
    ensures err { IfErr result (λ e. e ≡ Fault.Memory) }
{
    let mut seen = BTreeSet::new(alloc);
    let mut kept = Vec::new(alloc);
    while let Some((key, span)) = members.pop() {
        if seen.insert(key.clone()?)? {
            kept.push((key, span))?;
        }
    }
    kept.reverse();
    Ok(kept)
}

/// The most members whose keys are compared one with another.
const FEW: usize = 16;

/// Whether a member has this key.
fn has_key(members: &[(String, Span)], key: &str) -> bool
    ensures { result ≡ list_any (λ e. bytes_eq key.now e.0) (map entry_of members.now) }
{
    let mut rest = members;
    while let Some((member, more)) = rest.split_first() {
        if key == member.0.as_str() {
            return true;
        }
        rest = more;
    }
    false
}

/// Whether no key comes twice. Each is compared with those behind it.
fn are_different(members: &[(String, Span)]) -> bool
    ensures { OnTrue result (put_all [] (map entry_of members.now) ≡ map entry_of members.now) }
{
    let mut rest = members;
    while let Some((first, more)) = rest.split_first() {
        if has_key(more, first.0.as_str()) {
            return false;
        }
        rest = more;
    }
    true
}

/// The members of an object by the characters of their keys. Of a repeated key the last member counts, and they come in
/// the order in which these last ones stand (RFC 8259, section 4).
///
/// `NotJson` says that a key has no characters, for it has a lone surrogate.
pub fn members(alloc: Global, text: &str, span: Span) -> Result<Vec<(String, Span)>, Fault>
    requires { (ps : Parts) × IsAt text.now (object ps) span }
    ensures spans { IfOk result (λ v. (ps : Parts) (places : List Place)
        → Holds true text.now span ps places → depth (object ps) ≤ max_depth
        → option_map (put_all []) (entries text.now [] ps places) ≡ Some (map entry_of v.items)) }
    ensures ok { IfOk result (λ v. (ps : Parts) → IsAt text.now (object ps) span
        → (fs : Fields) × (members_of ps ≡ Some fs) × AllZip (IsMember text.now) v.items fs) }
    ensures err { IfErr result (NoMembers text.now span) }
{
    let all = read_members(alloc, text, span)?;
    if all.len() <= FEW && are_different(&all) {
        return Ok(all);
    }
    let kept = last_standing(alloc, all)?;
    Ok(kept)
}
