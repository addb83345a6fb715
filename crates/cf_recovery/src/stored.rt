//! Publications with their epochs beside them, in order of arrival.
ghost use Rattle.std.specs.Prelude.{◌≡◌, ◌+◌, ◌≤◌, ◌<◌, ℕ, ◌==◌, ◌&&◌, nat_le, length, IfSome, IfNone, false, true};
ghost use Rattle.std.specs.List.Sorted.{IsPermutation};
ghost use Rattle.std.specs.Str.{bytes_eq};
ghost use Rattle.cf_model.specs.Recovery.{all_within};
ghost use Rattle.cf_recovery.specs.ArrivalBuffer.{places};
ghost use Rattle.cf_recovery.specs.Stored.{stored, is_at};

use cf_protocol::{Epoch, Position, Publication};

/// Whether a publication of this epoch is the one `ahead` offsets above a position.
fn is_ahead(epoch: &Epoch, publication: &Publication, at: &Position, ahead: u64) -> bool
    ensures { result
        ≡ (bytes_eq epoch.now at.now.epoch && (publication.now.offset == at.now.offset + ahead)) }
{
    publication.offset.checked_sub(at.offset) == Some(ahead) && *epoch == at.epoch
}

/// Whether a publication of this epoch is at most `ahead` offsets above a position, or not above it, in its epoch.
fn is_within(epoch: &Epoch, publication: &Publication, at: &Position, ahead: u64) -> bool
    ensures { result
        ≡ (bytes_eq epoch.now at.now.epoch
        && nat_le publication.now.offset (at.now.offset + ahead)) }
{
    *epoch == at.epoch && publication.offset.saturating_sub(at.offset) <= ahead
}

/// Where, from the index `from` on, the publication `ahead` offsets above a position stands.
pub(crate) fn find(
    epochs: &[Epoch],
    publications: &[Publication],
    from: usize,
    at: &Position,
    ahead: u64,
) -> Option<usize>
    requires { length epochs.now ≡ length publications.now }
    ensures found { IfSome result
        (λ i. (from ≤ i) × (i < length publications.now)
        × (is_at (stored epochs.now publications.now) at.now.epoch (at.now.offset + ahead) i
        ≡ true)) }
    ensures none { IfNone result
        ((i : ℕ) → from ≤ i
        → is_at (stored epochs.now publications.now) at.now.epoch (at.now.offset + ahead) i
        ≡ false) }
{
    for i in from..publications.len() {
        if is_ahead(&epochs[i], &publications[i], at, ahead) {
            return Some(i);
        }
    }
    None
}

/// Whether all are of the position's epoch and at most `ahead` offsets above it.
pub(crate) fn are_within(
    epochs: &[Epoch],
    publications: &[Publication],
    at: &Position,
    ahead: u64,
) -> bool
    requires { length epochs.now ≡ length publications.now }
    ensures { result
        ≡ all_within (places (stored epochs.now publications.now)) at.now.epoch
        (at.now.offset + ahead) }
{
    for i in 0..publications.len() {
        if !is_within(&epochs[i], &publications[i], at, ahead) {
            return false;
        }
    }
    true
}

/// Brings those that follow a position without a gap to the front, in order of their offsets, and says how many they are.
pub(crate) fn gather(
    epochs: &mut Vec<Epoch>,
    publications: &mut Vec<Publication>,
    at: &Position,
) -> usize
    requires { length epochs.old.items ≡ length publications.old.items }
    ensures beside { length epochs.new.items ≡ length publications.new.items }
    ensures moved { IsPermutation (stored epochs.old.items publications.old.items)
        (stored epochs.new.items publications.new.items) }
    ensures counted { result ≤ length publications.new.items }
    ensures front { (k : ℕ) → k < result
        → is_at (stored epochs.new.items publications.new.items) at.now.epoch
        (at.now.offset + 1 + k) k ≡ true }
    ensures gap { (i : ℕ)
        → is_at (stored epochs.new.items publications.new.items) at.now.epoch
        (at.now.offset + 1 + result) i ≡ false }
{
    let mut count = 0;
    while let Some(i) = find(epochs, publications, count, at, count as u64 + 1) {
        epochs.swap(count, i);
        publications.swap(count, i);
        count += 1;
    }
    count
}
