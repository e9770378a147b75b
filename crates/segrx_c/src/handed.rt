//! A box as the pointer that is handed out, or none.
ghost use Rattle.std.specs.Prelude.{◌≡◌, Option, Some, None, MatchOption};
ghost use Rattle.segrx_c.specs.Handed.{given_at};

use std::alloc::Allocator;
use std::marker::Model;

/// What is answered where a box was to be made: its pointer and the right to free it, or NULL; and
/// a number.
pub struct Handed<T, A: Allocator> {
    pub number: u32,
    pub at: *mut T,
    pub alloc: A,
    pub ghost value: { Option T },
}

impl<T, A: Allocator> Model for Handed<T, A> {
    ghost also_owns = { λ h. given_at (A.dealloc_token h.alloc) T.row h.at h.value };
}

impl<T, A: Allocator> Handed<T, A> {
    /// The pointer of a box.
    pub fn of(b: Box<T, A>) -> Handed<T, A>
    where
        T: Drop,
        ensures { (result.value ≡ Some b.value) × (result.number ≡ 0) }
    {
        let (at, alloc) = Box::into_raw_with_allocator(b);
        Handed {
            number: 0,
            at,
            alloc,
        }
    }

    /// None was made.
    pub fn refused(alloc: A, number: u32) -> Handed<T, A>
        ensures { (result.value ≡ None) × (result.number ≡ number) }
    {
        Handed {
            number,
            at: std::ptr::null_mut(),
            alloc,
        }
    }

    /// The box again.
    pub fn into_box(self) -> Box<T, A>
        ghost value: { T }
        requires { self.value ≡ Some value }
        ensures { result.value ≡ value }
    {
        let Handed {
            number: _,
            at,
            alloc,
        } = self;
        unsafe { Box::from_raw(alloc, at) }
    }
}
