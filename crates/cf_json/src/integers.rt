// Numbers that are whole.
ghost use Rattle.std.specs.Prelude.{◌≡◌, List, ℕ, option_and_then};
ghost use Rattle.cf_json.specs.Grammar.{number};
ghost use Rattle.cf_json.specs.Spans.{IsAt};
ghost use Rattle.cf_json.specs.Integers.{whole_of, signed_of, as_u64, as_i64};

use crate::span::Span;

/// The number at the span if it is spelled by digits alone and fits a `u64`.
pub fn read_whole(text: &str, span: Span) -> Option<u64>
    requires { (n : List ℕ) × IsAt text.now (number n) span }
    ensures { (n : List ℕ) → IsAt text.now (number n) span
        → result ≡ option_and_then as_u64 (whole_of n) }
{
    match text[span.from..span.to].parse::<u64>() {
        Ok(whole) => Some(whole),
        Err(_) => None,
    }
}

/// The number at the span if it is spelled by digits alone, or by a minus and digits, and fits an `i64`.
pub fn read_signed(text: &str, span: Span) -> Option<i64>
    requires { (n : List ℕ) × IsAt text.now (number n) span }
    ensures { (n : List ℕ) → IsAt text.now (number n) span
        → result ≡ option_and_then as_i64 (signed_of n) }
{
    match text[span.from..span.to].parse::<i64>() {
        Ok(signed) => Some(signed),
        Err(_) => None,
    }
}
