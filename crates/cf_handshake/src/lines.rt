//! The lines of a head by their names, and the lists in them.
ghost use Rattle.std.specs.Prelude.{◌≡◌, length, All, option_map};
ghost use Rattle.httparse.specs.Grammar.{trim_ows};
ghost use Rattle.httparse.specs.Spans.{IsHeaderWithin};
ghost use Rattle.websocket.specs.Headers.{eq_ignore_case, fields_of};
ghost use Rattle.cf_handshake.specs.Lines.{has_line, is_item, lists, listed_in, only_value};

use httparse::is_space_or_tab;
use httparse::spans::HeaderSpan;

/// Whether the case of letters matters when an item of a list is looked for.
#[derive(Clone, Copy)]
pub(crate) enum Case {
    Matters,
    Ignored,
}

/// Whether the texts are the same but for the case of letters.
fn is_same_word(word: &[u8], other: &[u8]) -> bool
    ensures { result ≡ eq_ignore_case word.now other.now }
{
    word.eq_ignore_ascii_case(other)
}

/// Whether a line has this name.
pub(crate) fn has_line(head: &[u8], lines: &[HeaderSpan], name: &[u8]) -> bool
    requires { All (IsHeaderWithin (length head.now)) lines.now }
    ensures { result ≡ has_line (fields_of head.now lines.now) name.now }
{
    for line in lines {
        if is_same_word(line.name.of(head), name) {
            return true;
        }
    }
    false
}

/// The value of the one line with this name: `None` if there is none, or if there are several.
pub(crate) fn only_value<'h>(head: &'h [u8], lines: &[HeaderSpan], name: &[u8]) -> Option<&'h [u8]>
    requires { All (IsHeaderWithin (length head.now)) lines.now }
    ensures { option_map (λ v. v.now) result
        ≡ only_value (fields_of head.now lines.now) name.now }
{
    let mut found = None;
    for line in lines {
        if is_same_word(line.name.of(head), name) {
            if found.is_some() {
                return None;
            }
            found = Some(line.value.of(head));
        }
    }
    found
}

/// Whether a list with this name has this item.
pub(crate) fn lists(head: &[u8], lines: &[HeaderSpan], name: &[u8], item: &[u8], case: Case) -> bool
    requires { All (IsHeaderWithin (length head.now)) lines.now }
    ensures { result ≡ lists case item.now (fields_of head.now lines.now) name.now }
{
    for line in lines {
        if is_same_word(line.name.of(head), name) && is_listed_in(line.value.of(head), item, case) {
            return true;
        }
    }
    false
}

/// Whether one of the items between the commas is this one.
fn is_listed_in(list: &[u8], item: &[u8], case: Case) -> bool
    ensures { result ≡ listed_in case item.now list.now }
{
    let mut start = 0;
    for i in 0..list.len() {
        if list[i] == b',' {
            if is_item(&list[start..i], item, case) {
                return true;
            }
            start = i + 1;
        }
    }
    is_item(&list[start..], item, case)
}

/// Whether this is the item, with white space around it.
fn is_item(part: &[u8], item: &[u8], case: Case) -> bool
    ensures { result ≡ is_item case item.now part.now }
{
    let word = trimmed(part);
    match case {
        Case::Matters => word == item,
        Case::Ignored => is_same_word(word, item),
    }
}

/// The bytes without the spaces and tabs at both ends.
fn trimmed(bytes: &[u8]) -> &[u8]
    ensures { result.now ≡ trim_ows bytes.now }
{
    let mut start = 0;
    let mut end = bytes.len();
    while start < end && is_space_or_tab(bytes[start]) {
        start += 1;
    }
    while start < end && is_space_or_tab(bytes[end - 1]) {
        end -= 1;
    }
    &bytes[start..end]
}
