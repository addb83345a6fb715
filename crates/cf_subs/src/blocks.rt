//! Blocks that several pointers lead to, and the one owner of them all.
ghost use Rattle.std.specs.Prelude.{◌≡◌, ◌<◌, List as Seq, [], ◌∷◌, ◌++◌, None, Some, IsSome, ⊤};
ghost use Rattle.std.specs.Coded.{prop_coded};
ghost use Rattle.std.specs.Mem.{type_size};
ghost use Rattle.lru.specs.Linked.{IsApart, IsApart-prop};
ghost use Rattle.cf_subs.specs.Held.{Held, held, places, found, put_at, without};
ghost use Rattle.cf_subs.specs.Ownership.{blocks_own, blocks_lent};

use crate::loose::Loose;
use std::alloc::{AllocError, Global};
use std::marker::{Model, PhantomData, Send, Sync};

/// Where a block lies. It owns nothing.
pub struct At {
    pub(crate) ptr: *mut u8,
}

impl Clone for At {
    ghost is_clone = { λ x y. y ≡ x };

    ghost is_infallible = { λ _. ⊤ };

    fn clone(&self) -> Result<At, AllocError> {
        Ok(*self)
    }
}

impl Copy for At {}

unsafe impl Send for At {}

unsafe impl Sync for At {}

/// The owner of the blocks. It takes no space: the pointers to them lie elsewhere.
pub struct Blocks<T> {
    marker: PhantomData<*mut T>,
    ghost held: { Seq (Held T) },
    ghost apart: { IsApart (places held) } by { prop_coded (IsApart-prop (places held)) },
}

impl<T> Model for Blocks<T> {
    ghost also_owns = { λ b. blocks_own T.row b.held };

    ghost also_shares = { λ b _ κ. blocks_lent T.row b.held κ };
}

unsafe impl<T: Send> Send for Blocks<T> {}

unsafe impl<T: Sync> Sync for Blocks<T> {}

impl<T> Blocks<T> {
    pub(crate) fn new() -> Blocks<T>
        ensures { result.held ≡ [] }
    {
        Blocks {
            marker: PhantomData,
        }
    }

    /// Ends the owner, which has no block left.
    pub(crate) fn finish(self)
        requires { self.held ≡ [] }
    {
        let Blocks { marker: _ } = self;
    }

    /// Takes a block in behind all others, and says where it lies.
    pub(crate) fn hold(&mut self, block: Loose<T, Global>) -> At
        requires { 0 < type_size T.row }
        ensures fresh { found self.old.held result.ptr ≡ None }
        ensures held { self.new.held ≡ self.old.held ++ held result.ptr block.value ∷ [] }
    {
        let Loose { at, alloc: _ } = block;
        At { ptr: at as *mut u8 }
    }

    /// Gives a block out.
    pub(crate) fn release(&mut self, at: At, alloc: Global) -> Loose<T, Global>
        requires { IsSome (found self.old.held at.ptr) }
        ensures value { Some result.value ≡ found self.old.held at.ptr }
        ensures held { self.new.held ≡ without self.old.held at.ptr }
    {
        Loose {
            at: at.ptr as *mut T,
            alloc,
        }
    }

    pub(crate) fn get(&self, at: At) -> &T
        requires { IsSome (found self.now.held at.ptr) }
        ensures { Some result.now ≡ found self.now.held at.ptr }
    {
        let ptr = at.ptr as *const T;
        unsafe { &*ptr }
    }

    /// Writes a value over a block's, and returns the one that was there.
    pub(crate) fn put(&mut self, at: At, value: T) -> T
        requires { IsSome (found self.old.held at.ptr) }
        ensures value { Some result ≡ found self.old.held at.ptr }
        ensures held { self.new.held ≡ put_at self.old.held at.ptr value }
    {
        let ptr = at.ptr as *mut T;
        unsafe {
            let old = ptr.read();
            ptr.write(value);
            old
        }
    }
}
