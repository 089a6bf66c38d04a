//! A box that is taken apart.
ghost use Rattle.std.specs.Prelude.{◌≡◌};
ghost use Rattle.std.specs.Box.Ownership.{box_owns};

use std::alloc::Allocator;
use std::marker::Model;

/// What a box has: the pointer, and the allocator by which its block is freed.
pub(crate) struct Opened<T, A: Allocator> {
    pub(crate) at: *mut T,
    pub(crate) alloc: A,
    pub ghost value: { T },
}

impl<T, A: Allocator> Model for Opened<T, A> {
    ghost also_owns = { λ opened. box_owns (A.dealloc_token opened.alloc) T.row opened.at opened.value };
}

impl<T, A: Allocator> Opened<T, A> {
    /// The parts of a box. They take no memory.
    pub fn of(whole: Box<T, A>) -> Opened<T, A>
    where
        T: Drop,
        ensures { result.value ≡ whole.value }
    {
        let (at, alloc) = Box::into_raw_with_allocator(whole);
        Opened { at, alloc }
    }

    /// The box of these parts. It takes no memory.
    pub fn close(self) -> Box<T, A>
        ensures { result.value ≡ self.value }
    {
        let Opened { at, alloc } = self;
        unsafe { Box::from_raw(alloc, at) }
    }
}
