//! A broker that is looked at.
ghost use Rattle.std.specs.Prelude.{◌≡◌};
ghost use Rattle.cf_broker.specs.Shards.{names};

use super::report::Report;
use cf_broker::{Broker, Words, shard_of};
use cf_protocol::{Epoch, Namespaces, read_namespaces};
use cf_shard::Naming;
use cf_stream::Epochs;
use std::marker::Brand;

/// Gives no epoch, so that no stream opens.
#[derive(Clone, Copy)]
enum NoEpoch {
    Ever,
}

impl Epochs for NoEpoch {
    ghost use Rattle.std.specs.Prelude.{⊤};

    ghost draws = { λ old r new. ⊤ };

    fn draw(&mut self) -> Option<Epoch> {
        None
    }
}

/// `quiet_since`, which waits for nobody.
pub(crate) fn calls(report: &Report<'_>) {
    let Ok(namespaces) = read_namespaces(report.alloc(), "=100,300,phs") else {
        return report.lacks_memory();
    };
    let Ok(words) = Words::new(report.alloc()) else {
        return report.lacks_memory();
    };
    quiet_call::<Brand>(report, words, &namespaces);
}

/// `quiet_since` of a shard whose log is empty.
fn quiet_call<N: Naming>(report: &Report<'_>, words: Words, namespaces: &Namespaces)
    requires words { words ≡ names N.words 16 }
    requires namespaces { namespaces.now ≡ N.namespaces }
{
    let alloc = report.alloc();
    let epochs = [NoEpoch::Ever; 16];
    let made = Broker::<N, NoEpoch>::new(alloc, words, namespaces, epochs, Vec::new(alloc));
    let Ok((broker, mut passes)) = made else {
        return report.lacks_memory();
    };
    let Ok(broker) = Box::new(alloc, broker) else {
        return report.lacks_memory();
    };
    let mut pass = passes.take(&*broker, shard_of("news"));
    report.ready();
    let is_quiet = broker.quiet_since(&mut pass, "news", 0);
    report.made("Broker::quiet_since", is_quiet);
}
