//! Members, items, numbers, strings (RFC 8259, section 7), compact texts and depths, with answers by hand; each call at its
//! largest size, with ample memory; and what is said of each fault.
ghost use Rattle.std.specs.Prelude.{◌≡◌, IfSome};
ghost use Rattle.cf_json.specs.Grammar.{Tree};
ghost use Rattle.cf_json.specs.Spans.{IsAt};
ghost use Rattle.cf_json.specs.Kinds.{kind_of};

use crate::rows::{Subject, Told, are_so, call_of};
use cf_json::{
    Fault, Kind, Span, compact, items, kind, members, quote, read_signed, read_text, read_whole,
    scan, split_frame,
};
use std::alloc::Global;

/// The span of a text's one value, if that is of the kind.
fn span_of(text: &str, wanted: Kind) -> Option<Span>
    ensures { IfSome result (λ s. (t : Tree) × IsAt text.now t s × (kind_of t ≡ wanted)) }
{
    let Ok(span) = scan(text) else {
        return None;
    };
    if kind(text, span) == wanted {
        return Some(span);
    }
    None
}

fn members_of(alloc: Global, text: &str) -> Result<Vec<(String, Span)>, Fault> {
    match span_of(text, Kind::Object) {
        Some(span) => members(alloc, text, span),
        None => Err(Fault::Memory),
    }
}

fn items_of(alloc: Global, text: &str) -> Result<Vec<Span>, Fault> {
    match span_of(text, Kind::Array) {
        Some(span) => items(alloc, text, span),
        None => Err(Fault::Memory),
    }
}

fn text_of(alloc: Global, text: &str) -> Result<String, Fault> {
    match span_of(text, Kind::Text) {
        Some(span) => read_text(alloc, text, span),
        None => Err(Fault::Memory),
    }
}

fn whole_of(text: &str) -> Option<u64> {
    match span_of(text, Kind::Number) {
        Some(span) => read_whole(text, span),
        None => None,
    }
}

fn signed_of(text: &str) -> Option<i64> {
    match span_of(text, Kind::Number) {
        Some(span) => read_signed(text, span),
        None => None,
    }
}

/// A text's one value without white space.
fn compacted(alloc: Global, text: &str) -> Result<String, Fault> {
    let span = scan(text)?;
    compact(alloc, text, span)
}

/// Tells a span, behind those that were told before.
fn tell_span(told: &mut Told, span: Span) {
    told.part(", ");
    let Span { from, to } = span;
    told.tell(format_args!("{from} {to}"));
}

/// Tells the span of a text's one value.
fn tell_value(told: &mut Told, text: &str) {
    match scan(text) {
        Ok(span) => tell_span(told, span),
        Err(fault) => told.tell(format_args!("{fault:?}")),
    }
}

/// Tells spans, one behind another.
fn tell_spans(told: &mut Told, found: Result<Vec<Span>, Fault>) {
    match found {
        Ok(found) => {
            for span in &found {
                tell_span(told, *span);
            }
        }
        Err(fault) => told.tell(format_args!("{fault:?}")),
    }
}

/// Tells how many spans there are.
fn tell_count(told: &mut Told, found: Result<Vec<Span>, Fault>) {
    match found {
        Ok(found) => told.tell(found.len()),
        Err(fault) => told.tell(fault),
    }
}

/// Tells each member's key, and the span of its value.
fn tell_members(told: &mut Told, found: &[(String, Span)]) {
    for (key, Span { from, to }) in found {
        told.part(", ");
        told.tell(format_args!("{key} {from} {to}"));
    }
}

/// Tells how many members there are, and the last one's key: `COUNT to KEY`.
fn tell_last(told: &mut Told, found: &[(String, Span)]) {
    match found.last() {
        Some((key, _)) => told.tell(format_args!("{} to {key}", found.len())),
        None => told.tell("0"),
    }
}

/// Tells the members of an object by one of these, or why there are none.
fn tell_object(told: &mut Told, alloc: Global, name: &str, text: &str) {
    match members_of(alloc, text) {
        Ok(found) if name == "keys" => tell_last(told, found.as_slice()),
        Ok(found) => tell_members(told, found.as_slice()),
        Err(fault) => told.tell(fault),
    }
}

/// Tells a number, or `none`.
fn tell_number(told: &mut Told, name: &str, text: &str) {
    match name {
        "read_whole" => match whole_of(text) {
            Some(number) => told.tell(number),
            None => told.tell("none"),
        },
        _ => match signed_of(text) {
            Some(number) => told.tell(number),
            None => told.tell("none"),
        },
    }
}

/// Calls by their names. `keys`, `count` and `length` tell of `members`, `split_frame` and `items` how many there are.
#[derive(Drop)]
pub(super) struct Calls;

impl Subject for Calls {
    fn play(&mut self, alloc: Global, done: &str, told: &mut Told) {
        let (name, text) = call_of(done);
        match name {
            "scan" => tell_value(told, text),
            "split_frame" => tell_spans(told, split_frame(alloc, text)),
            "items" => tell_spans(told, items_of(alloc, text)),
            "members" | "keys" => tell_object(told, alloc, name, text),
            "count" => tell_count(told, split_frame(alloc, text)),
            "length" => tell_count(told, items_of(alloc, text)),
            "read_whole" | "read_signed" => tell_number(told, name, text),
            "read_text" => told.answer(text_of(alloc, text)),
            "compact" => told.answer(compacted(alloc, text)),
            "quote" => told.answer(quote(alloc, text)),
            _ => told.tell("no call"),
        }
    }
}

const ROWS: &str = r#"members {"a":1,"b":2,"a":3} => b 11 12, a 17 18
members {} => nothing
items [1, {} ,[]] => 1 2, 4 6, 8 10
items [] => nothing
read_whole 18446744073709551615 => 18446744073709551615
read_whole 18446744073709551616 => none
read_whole 1.0 => none
read_whole 0 => 0
read_whole -1 => none
read_signed -1 => -1
read_signed 9223372036854775807 => 9223372036854775807
read_signed 9223372036854775808 => none
read_signed -9223372036854775808 => -9223372036854775808
read_signed 1e2 => none
scan *64*[**64*]* => 0 128
scan *65*[**65*]* => TooDeep(64)
keys {"\u0061":1,"a":2} => 1 to a
keys {"\ud800":1} => no JSON at byte 1
compact [ 1.50 , "x y" ] => [1.50,"x y"]
compact  " \" "  => " \" "
read_text  "\u0061b"  => ab
read_text "" => nothing
read_text "\"\\\/" => "\/
read_text "\u00E9\u20ac" => é€
read_text "\uD834\uDD1E" => 𝄞
read_text "\u005C\u0022n" => \"n
read_text "\ud83d" => no JSON at byte 0
read_text "\ud834" => no JSON at byte 0
read_text "\ude00" => no JSON at byte 0
read_text "\ud83d\u0061" => no JSON at byte 0
read_text "\ud83d\ud83d\ude00" => no JSON at byte 0
read_text "\ud83d\n" => no JSON at byte 0
read_text "\ud83dude00" => no JSON at byte 0
quote a"b => "a\"b"
quote  => ""
quote \/ => "\\/"
count [*64*[**64*]* => nested too deep at byte 64
count *65*[* => nested too deep at byte 64
count *65*[*} => nested too deep at byte 64
count [}*65*[*} => no JSON at byte 1
count {}*65*[*} => nested too deep at byte 66"#;

/// With white space and other characters that aren't shown.
const SPACED_ROWS: &str = "\
length [␊] => 0
compact { \"a\\u0020\" :\t{ } } => {\"a\\u0020\":{}}
compact ␊1E+05\r => 1E+05
read_text \"\\b\\f\\n\\r\\t\" => \u{8}\u{c}␊\r\t
quote \u{8}\u{c}␊\r\t => \"\\b\\f\\n\\r\\t\"
quote \0\u{b}\u{1f}  => \"\\u0000\\u000b\\u001f \"
quote \u{7f}é\u{2028}\u{1d11e} => \"\u{7f}é\u{2028}\u{1d11e}\"
read_text \"*5416*\\u0009\\n\\\"\\/*\" => *5416*\t␊\"/*
quote *5416*\t␊\"/* => \"*5416*\\t\\n\\\"/*\"";

/// Texts of up to 65,536 bytes. Of those that are made compact the first becomes shorter; the others are compact already, without
/// a space and with one in a string.
const LONG_ROWS: &str = r#"keys {*5999*"k#":1,*"end":1} => 6000 to end
keys {*5000*"end":1,*"end":2} => 1 to end
count *32768*{}* => 32768
length [*999*1, *1] => 1000
read_text "*13000*abcde*" => *13000*abcde*
quote *13000*abcde* => "*13000*abcde*"
compact [*10922*" " , *12] => [*10922*" ",*12]
compact [*16000*1,*12] => [*16000*1,*12]
compact [*16000*" ",*12] => [*16000*" ",*12]"#;

#[test]
fn vectors(rt: HostRuntime) {
    are_so(&rt, rt.alloc(), "texts/json/vectors", &mut Calls, ROWS);
    are_so(
        &rt,
        rt.alloc(),
        "texts/json/vectors spaced",
        &mut Calls,
        SPACED_ROWS,
    );
    are_so(
        &rt,
        rt.alloc(),
        "texts/json/vectors long",
        &mut Calls,
        LONG_ROWS,
    );
}
