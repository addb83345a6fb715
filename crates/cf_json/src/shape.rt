// The kind of a value and how deep it nests.
ghost use Rattle.std.specs.Prelude.{◌≡◌, ◌<◌};
ghost use Rattle.cf_json.specs.Grammar.{Tree, depth};
ghost use Rattle.cf_json.specs.Spans.{IsAt};
ghost use Rattle.cf_json.specs.Kinds.{kind_of, kind_from};
ghost use Rattle.cf_json.specs.Levels.{level_after, deepest};
ghost use Rattle.cf_json.specs.declared.squeeze.SqueezeMode.TheVariants as Mode;

use crate::kinds::Kind;
use crate::span::Span;
use crate::squeeze::{SqueezeMode, next};

#[tactic(auto, unfolding(crate::specs::Kinds::kind_from))]
fn kind_from(byte: u8) -> Kind
    ensures { result ≡ kind_from byte }
{
    match byte {
        b'{' => Kind::Object,
        b'[' => Kind::Array,
        b'"' => Kind::Text,
        b't' => Kind::True,
        b'f' => Kind::False,
        b'n' => Kind::Null,
        _ => Kind::Number,
    }
}

/// The kind of the value at the span.
pub fn kind(text: &str, span: Span) -> Kind
    requires { (t : Tree) × IsAt text.now t span }
    ensures { (t : Tree) → IsAt text.now t span → result ≡ kind_of t }
{
    let bytes = text.as_bytes();
    kind_from(bytes[span.from])
}

#[tactic(auto, unfolding(crate::specs::Levels::level_after, crate::specs::Bytes::is_opening, crate::specs::Bytes::is_closing))]
fn level_after(mode: SqueezeMode, byte: u8, level: usize) -> usize
    requires { level < usize.MAX }
    ensures { result ≡ level_after mode byte level }
{
    match mode {
        SqueezeMode::Between => if byte == b'[' || byte == b'{' {
            level + 1
        } else if byte == b']' || byte == b'}' {
            level.saturating_sub(1)
        } else {
            level
        },
        SqueezeMode::Within | SqueezeMode::Escaped => level,
    }
}

// The deepest level that the brackets of the text reach.
#[tactic(auto, unfolding(crate::specs::Levels::deepest))]
fn deepest(text: &[u8]) -> usize
    ensures { result ≡ deepest SqueezeMode.Between 0 0 text.now }
{
    let mut rest = text;
    let mut mode = SqueezeMode::Between;
    let mut level = 0;
    let mut highest = 0;
    while let Some((byte, more)) = rest.split_first() {
        level = level_after(mode, *byte, level);
        if highest < level {
            highest = level;
        }
        mode = next(mode, char::from(*byte));
        rest = more;
    }
    highest
}

/// How deep the arrays and objects of the value nest: 0 if it is neither, and 1 for an empty one.
pub fn depth(text: &str, span: Span) -> usize
    requires { (t : Tree) × IsAt text.now t span }
    ensures { (t : Tree) → IsAt text.now t span → result ≡ depth t }
{
    let (front, _) = text.as_bytes().split_at(span.to);
    let (_, own) = front.split_at(span.from);
    deepest(own)
}
