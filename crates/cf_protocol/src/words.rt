//! The words that settings are written in.
ghost use Rattle.std.specs.Prelude.{◌≡◌};
ghost use Rattle.std.specs.List.{list_all};
ghost use Rattle.std.specs.Option.{MatchOption};
ghost use Rattle.cf_protocol.specs.SettingsText.{is_word, is_word_byte};
ghost use Rattle.cf_protocol.specs.SettingsRead.{IsFoundBy, IsCut, IsCount, Lacks};

fn has_word_bytes(text: &str) -> bool
    ensures { result ≡ list_all is_word_byte text.now }
{
    text.bytes().all(|byte| byte.is_ascii_alphanumeric() || byte == b'-' || byte == b'_')
}

/// Whether these are ASCII letters, digits, `-` or `_`, no more than so many.
pub fn is_word(text: &str, most: usize) -> bool
    ensures { result ≡ is_word most text.now }
{
    text.len() <= most && has_word_bytes(text)
}

/// The whole number from 1 to so much that the text spells: digits without sign or leading zeros.
pub fn count_of(text: &str, most: u64) -> Option<u64>
    ensures { IsFoundBy (IsCount most text.now) result }
{
    if text.starts_with('0') {
        return None;
    }
    if text.starts_with('+') {
        return None;
    }
    let Ok(number) = text.parse::<u64>() else {
        return None;
    };
    if number > most {
        return None;
    }
    Some(number)
}

/// What stands before the first `=` of a text, and behind it.
pub fn cut_name(text: &str) -> Option<(&str, &str)>
    ensures { MatchOption result (Lacks 61 text.now) (λ p. IsCut 61 text.now p.0.now p.1.now) }
{
    text.split_once('=')
}

/// What stands before the first comma of a text, and behind it.
pub fn cut_part(text: &str) -> Option<(&str, &str)>
    ensures { MatchOption result (Lacks 44 text.now) (λ p. IsCut 44 text.now p.0.now p.1.now) }
{
    text.split_once(',')
}
