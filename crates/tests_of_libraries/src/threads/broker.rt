//! The broker's calls, as rows of what is done and what comes of it: on one thread, and on two.
//!
//! A row is a call on a channel by passes of our own, as `calls` has it, and behind an arrow what comes of it, if it answers
//! anything. `they CALL` is one by passes that were lent to them at the beginning; `both CALL | CALL` are two at once, the second
//! by them on a thread of its own; `join C` brings their pass of a channel's shard to ours, and by `meet C` each sees what the
//! other has. `at NOW` is the moment of our calls from then on. `receive I` is what comes next over the link to node I, `lost I`
//! how much that node lost, and `crowded I` whether one is behind: the link to node 0 has one place, and that to node 1 twenty.
mod calls;
mod stage;

use crate::rows::Table;
use cf_broker::Words;
use cf_protocol::read_namespaces;
use stage::{part_of, play};
use std::marker::Brand;
use std::sync::atomic::AtomicU64;

/// Each part is played on a broker of its own: first those on one thread, then those on two.
const PARTS: &str =
    r#"# streams_and_links: a link of one place loses the second of three publications and the third
put news 1 => aaaa 1
put news 1 => aaaa 2
put news 1 => aaaa 3
lost 0 => 2
lost 1 => 0
lost 2 => 0
receive 0 => news aaaa 1 1 of ann 0-1-1
receive 0 => nothing
receive 1 => news aaaa 1 1 of ann 0-1-1
receive 1 => news aaaa 2 1 of ann 0-1-1
receive 1 => news aaaa 3 1 of ann 0-1-1
receive 1 => nothing

# repeats_are_answered: no link brings a repeat
publish news 1 k => aaaa 1
publish news 2 k => again aaaa 1
publish news 3 => aaaa 2
receive 1 => news aaaa 1 1
receive 1 => news aaaa 2 3
receive 1 => nothing

# same_to_both_nodes
put news [1] => aaaa 1
receive 0 => news aaaa 1 [1] of ann 0-1-1
receive 1 => news aaaa 1 [1] of ann 0-1-1
publish news "two" => aaaa 2
receive 0 => news aaaa 2 "two"
receive 1 => news aaaa 2 "two"
receive 0 => nothing
receive 1 => nothing

# crowded_link: of twenty places more than sixteen are many
often news 16 => nothing
crowded 1 => no
publish news 1 => aaaa 17
crowded 1 => yes
receive 1 => news aaaa 1 1
crowded 1 => no

# presence, alone: a client is there until it leaves, or until 60 seconds after it entered
enter news 0-1-1 ann => yes
stats news => 1, 1
list news => 0-1-1 ann
leave news 0-1-1 => nothing
list news => nothing
at 50 => nothing
enter news 0-1-2 bob => yes
at 109 => nothing
tick news => yes
stats news => 1, 1
at 110 => nothing
tick news => yes
stats news => 0, 0

# histories_in_time: a publication lasts for 100 seconds, and its stream for 2,592,000 after a history or a read
at 50 => nothing
publish news 1 => aaaa 1
at 149 => nothing
tick news => yes
at 50 => nothing
history news => 1, the last 1 1
at 150 => nothing
tick news => yes
at 200 => nothing
history news => 0
at 2592199 => nothing
tick news => yes
position news => 1, 3
at 2592200 => nothing
tick news => yes
position news => none
at 3000000 => nothing
read news => not recovered
at 5591999 => nothing
tick news => yes
position news => 0, 5
at 5592000 => nothing
tick news => yes
position news => none

# pass_handed_over: a thread publishes, ends, and hands over its pass, which ours meets. It is quiet until the next publish
both at 0 | publish news 1 => nothing | aaaa 1
meet news => nothing
read news 0 => log 2, recovered 1, the last 1 1
history news => 1, the last 1 1
quiet news 2 => yes
they publish news 2 => aaaa 2
quiet news 2 => no
meet news => nothing
quiet news 2 => no
quiet news 3 => yes

# pass_joined: the same where ours takes theirs in
both at 0 | publish news 1 => nothing | aaaa 1
join news => nothing
read news 0 => log 2, recovered 1, the last 1 1
share news => 1

# no_wait: how long a shard's log is, by a function that can't wait
look news => 0
publish news 1 => aaaa 1
look news => 2
quiet news 1 => no
quiet news 2 => yes

# shares_add_up
both often news 100 | often news 100 => nothing | nothing
join news => nothing
share news => 200
position news => 200, 201

# size_among_publishes: three are held at the end, wherever among the publishes the size was set
both often news 100 | size news => nothing | yes
history news => 3, the last 100 1
position news => 100, 102

# size_in_one_shard: in the other one the size stays as it is
both often b 100 | size news => nothing | yes
often news 100 => nothing
history b => 100, the last 100 1
position b => 100, 101
history news => 3, the last 100 1
position news => 100, 102

# two_shards: each thread draws its epoch while the other holds its shard
both publish news 1 | publish b 1 => aaaa 1 | aaaa 1"#;

/// What links bring and lose, who is there, and the moments that are handed on; passes that are handed over and joined, a size
/// that is set while another thread publishes, and two shards at once.
#[test]
fn parts_are_so(rt: HostRuntime) {
    let namespaces = read_namespaces(rt.alloc(), "=100,100,phs").expect(&rt, "namespaces");
    let (first, second) = (AtomicU64::new(0), AtomicU64::new(0));
    let mut table = Table::new(rt.alloc(), "threads/broker");
    for rows in PARTS.split("\n\n") {
        let words = Words::new(rt.alloc()).expect(&rt, "memory");
        let part = part_of(rows, &first, &second);
        play::<Brand, HostRuntime>(&rt, words, &namespaces, part, &mut table);
    }
    table.ends(&rt);
}
