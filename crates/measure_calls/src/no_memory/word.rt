//! A shard's word.
ghost use Rattle.std.specs.Prelude.{◌≡◌, []};

use super::report::Report;
use cf_order::{Entry, Owner, Pass, ShardWord};
use cf_protocol::Epoch;

/// The calls of a word, its owner and its passes.
pub(crate) fn calls(report: &Report<'_>) {
    let Ok((word, mut owner, mut pass)) = ShardWord::new(report.alloc()) else {
        return report.lacks_memory();
    };
    report.ready();
    append_calls(report, &word, &mut owner, &mut pass);
    lent_calls(report, &word, &mut owner, &mut pass);
    let is_so = owner.count() == 3 && pass.share() == 1;
    report.made("Owner::count and Pass::share", is_so);
}

/// `append` to a log that is empty.
fn append_calls(report: &Report<'_>, word: &ShardWord, owner: &mut Owner, pass: &mut Pass)
    requires owner { owner.old ≡ record { word = word.now; log = [] } }
    requires pass { pass.old.word ≡ word.now }
    ensures owner { owner.new.word ≡ word.now }
    ensures pass { pass.new.word ≡ word.now }
{
    let opened = Entry::Opened("news", Epoch::from_text("aaaa"));
    word.append(owner, pass, &opened);
    word.append(owner, pass, &Entry::Published("news", "k", "1", None));
    word.append(owner, pass, &Entry::Sized("", 5));
    report.made("ShardWord::append", true);
}

/// The calls of a pass that is lent.
fn lent_calls(report: &Report<'_>, word: &ShardWord, owner: &mut Owner, pass: &mut Pass)
    requires owner { owner.old.word ≡ word.now }
    requires pass { pass.old.word ≡ word.now }
{
    let mut lent = word.lend(pass);
    report.made("ShardWord::lend", true);
    word.follow(owner, &mut lent);
    report.made("ShardWord::follow", true);
    report.made("ShardWord::look", word.look(&mut lent) == 3);
    word.meet(pass, &mut lent);
    report.made("ShardWord::meet", true);
    word.join(pass, lent);
    report.made("ShardWord::join", true);
}
