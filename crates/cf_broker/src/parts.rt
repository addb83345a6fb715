//! What shards are made of, and how.
ghost use Rattle.std.specs.Prelude.{◌≡◌, ◌+◌, IfOk, vec_len};
ghost use Rattle.cf_shard.specs.Shard.{no_streams};
ghost use Rattle.cf_shard.specs.Shards.{names};

use crate::locked_shard::LockedShard;
use crate::words::NewWord;
use cf_protocol::Namespaces;
use cf_shard::Naming;
use cf_stream::{Epochs, Streams};
use std::alloc::{AllocError, Global};
use std::marker::PhantomData;

/// What a shard is made of.
#[derive(Drop)]
pub(crate) struct Part<N: Naming, E: Epochs> {
    streams: Streams,
    epochs: Box<E>,
    of: PhantomData<N>,
    ghost empty: { streams ≡ no_streams N.namespaces },
}

/// The parts of a shard for each of these epochs, in their order.
pub(crate) fn parts_of<N: Naming, E: Epochs + Drop>(
    alloc: Global,
    namespaces: &Namespaces,
    epochs: Vec<E>,
) -> Result<Vec<Part<N, E>>, AllocError>
    requires { namespaces.now ≡ N.namespaces }
    ensures { IfOk result (λ v. vec_len v ≡ vec_len epochs) }
{
    let mut parts = Vec::new(alloc);
    for source in epochs {
        let epochs = Box::new(alloc, source)?;
        parts.push(Part {
            streams: Streams::new(alloc, namespaces)?,
            epochs,
            of: PhantomData,
        })?;
    }
    Ok(parts)
}

/// A shard of the last of these parts, beside the last of these words.
pub(crate) fn last_place<N: Naming, E: Epochs, const I: usize>(
    alloc: Global,
    parts: &mut Vec<Part<N, E>>,
    words: &mut Vec<NewWord>,
) -> LockedShard<N, E, I>
    requires parts { vec_len parts.old ≡ I + 1 }
    requires words { words.old.items ≡ names N.words (I + 1) }
    ensures parts { vec_len parts.new ≡ I }
    ensures words { words.new.items ≡ names N.words I }
{
    let Some(part) = parts.pop() else {
        unreachable!()
    };
    let Some(new) = words.pop() else {
        unreachable!()
    };
    let NewWord { word, owner } = new;
    LockedShard::new(alloc, part.streams, part.epochs, word, owner)
}
