ghost use Rattle.std.specs.Prelude.{◌≡◌};

use cf_order::{Entry, NamedOwner, Owner, Pass, ShardWord, WordNaming, publish_both};
use std::marker::Brand;
use std::process::Abort;
use std::sync::{Mutex, Wait};
use std::thread::{Threads, join};

/// Publishes 100 times.
fn publish_often<N: WordNaming, R: Wait>(
    rt: &R,
    word: &ShardWord,
    owner: &Mutex<NamedOwner<N>>,
    mut pass: Pass,
) -> Pass
    requires word { word.now ≡ N.word }
    requires pass { pass.word ≡ N.word }
    ensures { result.word ≡ N.word }
{
    for _ in 0..100u32 {
        owner
            .lock(rt)
            .append(word, &mut pass, &Entry::Published("news", "", "1", None));
    }
    pass
}

/// Two threads publish 100 times each with lent passes; joined, the pass has all of their shares.
fn add_up<N: WordNaming + Send + Sync, R: Threads + Wait + Abort + Sync>(
    rt: &R,
    word: &ShardWord,
    owner: Owner,
    mut pass: Pass,
)
    requires word { word.now ≡ N.word }
    requires owner { owner.word ≡ N.word }
    requires pass { pass.word ≡ N.word }
{
    let owner = Mutex::new(NamedOwner::<N>::new(owner));
    let one = word.lend(&mut pass);
    let two = word.lend(&mut pass);
    let (one, two) = join(
        rt,
        || -> Pass
            requires { (word.now ≡ N.word) × (one.word ≡ N.word) }
            ensures { result.word ≡ N.word }
        { publish_often(rt, word, &owner, one) },
        || -> Pass
            requires { (word.now ≡ N.word) × (two.word ≡ N.word) }
            ensures { result.word ≡ N.word }
        { publish_often(rt, word, &owner, two) },
    );
    word.join(&mut pass, one);
    word.join(&mut pass, two);
    assert!(rt; pass.share() == 200 && word.look(&mut pass) == 200);
    assert!(rt; publish_both(rt, word, &owner, &mut pass, "news", "2", "3"));
    assert!(rt; pass.share() == 202 && word.look(&mut pass) == 202);
}

#[test]
fn shares_add_up(rt: HostRuntime) {
    let (word, owner, pass) = ShardWord::new(rt.alloc()).expect(&rt, "memory");
    add_up::<Brand, _>(&rt, &word, owner, pass);
}
