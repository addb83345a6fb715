//! Whole numbers as a line writes them.
ghost use Rattle.std.specs.Prelude.{◌≡◌, ◌≢◌, ℕ, ◌≤◌, MatchOption};
ghost use Rattle.std.specs.Fmt.{decimal};
ghost use Rattle.std.specs.Char.{is_ascii_digit};
ghost use Rattle.std.specs.List.{list_all};
ghost use Rattle.cf_schedule.specs.LineRead.{IsNoNumber};
ghost use Rattle.cf_protocol.specs.Settings.{largest_size};

use cf_protocol::LARGEST_SIZE;
use std::marker::Model;

/// A namespace's history size: 1 to 10,000 publications.
#[derive(Clone, Copy)]
pub struct HistorySize {
    count: usize,
}

impl Model for HistorySize {
    ghost use Rattle.std.specs.Prelude.{ℕ, ◌≤◌};
    ghost use Rattle.cf_protocol.specs.Settings.{largest_size};

    ghost Value = { ℕ };

    ghost view = { λ s. s.count };

    ghost invariant = { λ s. (1 ≤ s.count) × (s.count ≤ largest_size) };

    ghost inverse = { λ n. record { count = n } };
}

impl HistorySize {
    /// The size that these digits write. None for any other text.
    pub(crate) fn read(text: &str) -> Option<HistorySize>
        ensures { MatchOption result
            ((n : ℕ) → 1 ≤ n → n ≤ largest_size → text.now ≢ decimal n)
            (λ n. text.now ≡ decimal n) }
    {
        let count = whole_number(text)?;
        if count < 1 || count > LARGEST_SIZE {
            return None;
        }
        Some(HistorySize {
            count: count as usize,
        })
    }

    /// How many publications it is.
    pub fn count(self) -> usize
        ensures value { result ≡ self }
        ensures range { (1 ≤ result) × (result ≤ largest_size) }
    {
        self.count
    }
}

fn has_digits_alone(text: &str) -> bool
    ensures { result ≡ list_all is_ascii_digit text.now }
{
    text.as_bytes().iter().all(u8::is_ascii_digit)
}

/// The number that these digits write: no sign, no leading zero, at most 18,446,744,073,709,551,615. None for any other
/// text.
pub(crate) fn whole_number(text: &str) -> Option<u64>
    ensures { MatchOption result (IsNoNumber text.now) (λ n. text.now ≡ decimal n) }
{
    if !has_digits_alone(text) {
        return None;
    }
    if text.len() > 1 && text.starts_with('0') {
        return None;
    }
    match text.parse::<u64>() {
        Ok(number) => Some(number),
        Err(_) => None,
    }
}
