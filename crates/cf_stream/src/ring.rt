//! The ring behind a stream.
ghost use Rattle.std.specs.Prelude.{◌≡◌, ◌+◌, ◌-◌, ◌≤◌, ◌==◌, [], ◌∷◌, ◌++◌, length, min, take, drop, slice_get, option_copied, IfOk, OnOk};
ghost use Rattle.circular_buffer.specs.Buffer.{buffer};
ghost use Rattle.cf_model.specs.Keys.{newest};
ghost use Rattle.cf_protocol.specs.Settings.{largest_size};

use cf_protocol::Publication;
use circular_buffer::HeapCircularBuffer;
use std::alloc::{AllocError, Global};
use std::marker::Model;

/// The last items of a list, the oldest first. Until the first one comes they take a word.
#[derive(Drop)]
pub(crate) struct Ring<T> {
    block: Option<Box<HeapCircularBuffer<T>>>,
}

impl<T> Model for Ring<T> {
    ghost use Rattle.circular_buffer.specs.Buffer.{Buffer};
    ghost use Rattle.cf_stream.specs.Ring.{kept};

    ghost Value = { Buffer T };

    ghost view = { λ r. kept r.block };
}

impl<T: Drop> Ring<T> {
    /// No item, and no room for one.
    pub(crate) fn new() -> Ring<T>
        ensures { result ≡ buffer [] 0 }
    {
        Ring { block: None }
    }

    /// How many items there are.
    pub(crate) fn len(&self) -> usize
        ensures { result ≡ length self.now.items }
    {
        match &self.block {
            None => 0,
            Some(block) => block.as_ref().len(),
        }
    }

    /// Whether there is no item.
    pub(crate) fn is_empty(&self) -> bool
        ensures { result ≡ (length self.now.items == 0) }
    {
        self.len() == 0
    }

    /// The item at a place.
    pub(crate) fn get(&self, index: usize) -> Option<&T>
        ensures { option_copied result ≡ slice_get self.now.items index }
    {
        match &self.block {
            None => None,
            Some(block) => block.as_ref().get(index),
        }
    }

    /// The last item.
    pub(crate) fn back(&self) -> Option<&T>
        ensures { option_copied result ≡ slice_get self.now.items (length self.now.items - 1) }
    {
        self.get(self.len().saturating_sub(1))
    }

    /// Makes room for one item more if `size` allows it. The block grows only if it has to, to about twice what is held.
    pub(crate) fn make_room(&mut self, alloc: Global, size: usize) -> Result<(), AllocError>
        requires { (1 ≤ size) × (size ≤ largest_size) × (length self.old.items ≤ size) }
        ensures items { self.new.items ≡ self.old.items }
        ensures room { OnOk result (min size (length self.old.items + 1) ≤ self.new.capacity) }
    {
        match &mut self.block {
            Some(block) => grow(block.as_mut(), size),
            None => {
                let block = HeapCircularBuffer::with_capacity(alloc, 1)?;
                self.block = Some(Box::new(alloc, block)?);
                Ok(())
            }
        }
    }

    /// Appends an item and lets the oldest go past `size`. It takes no memory.
    pub(crate) fn put(&mut self, size: usize, item: T)
        requires sized { (1 ≤ size) × (length self.old.items ≤ size) }
        requires room { min size (length self.old.items + 1) ≤ self.old.capacity }
        ensures { self.new.items ≡ newest size (self.old.items ++ item ∷ []) }
    {
        let Some(block) = &mut self.block else {
            unreachable!()
        };
        let block = block.as_mut();
        if block.len() >= size {
            block.truncate_front(size - 1);
        }
        block.push_back(item);
    }

    /// Keeps at most the last `count` items. It takes no memory.
    pub(crate) fn keep(&mut self, count: usize)
        ensures { self.new.items ≡ newest count self.old.items }
    {
        match &mut self.block {
            None => {}
            Some(block) => block.as_mut().truncate_front(count),
        }
    }

    /// Lets all items go, and their block.
    pub(crate) fn clear(&mut self)
        ensures { self.new ≡ buffer [] 0 }
    {
        self.block = None;
    }
}

/// Makes room for one item more in a block, if `size` allows it.
fn grow<T: Drop>(block: &mut HeapCircularBuffer<T>, size: usize) -> Result<(), AllocError>
    requires { (1 ≤ size) × (size ≤ largest_size) × (length block.old.items ≤ size) }
    ensures items { block.new.items ≡ block.old.items }
    ensures room { OnOk result (min size (length block.old.items + 1) ≤ block.new.capacity) }
{
    let len = block.len();
    if len < size && len == block.capacity() {
        block.resize((2 * len + 1).min(size))
    } else {
        Ok(())
    }
}

/// Copies of `count` items from the place `from` on.
pub(crate) fn copies(
    alloc: Global,
    ring: &Ring<Publication>,
    from: usize,
    count: usize,
) -> Result<Vec<Publication>, AllocError>
    requires { from + count ≤ length ring.now.items }
    ensures { IfOk result (λ v. v.items ≡ take count (drop from ring.now.items)) }
{
    let _len = ring.len();
    let mut copies = Vec::with_capacity(alloc, count)?;
    for i in 0..count {
        match ring.get(from + i) {
            None => unreachable!(),
            Some(publication) => copies.push_reserved(publication.copied()?),
        }
    }
    Ok(copies)
}
