//! What C holds for a pile.

ghost use Rattle.std.specs.Prelude.{◌≡◌, Some, None, MatchOption};
ghost use Rattle.chip_handle.specs.Handles.{number_of_piles};

use crate::loose::Loose;
use crate::raw::Raw;
use chip_library::KeptPile;
use std::alloc::Global;
use std::marker::Send;
use std::mem::replace;

/// A pile, or none. If all bytes are 0, there is none.
#[repr(C)]
#[derive(Drop)]
pub struct Handle {
    /// 1 if there is a pile, else 0.
    full: u64,
    pub raw: Raw,
    ghost is: { full ≡ number_of_piles raw.value },
}

impl Handle {
    /// No pile.
    pub(crate) fn none(alloc: Global) -> Handle
        ensures { result.raw.value ≡ None }
    {
        Handle {
            full: 0,
            raw: Raw::none(alloc),
        }
    }

    /// This pile.
    pub(crate) fn of(boxed: Box<KeptPile, Global>) -> Handle
        ensures { result.raw.value ≡ Some boxed.value }
    {
        Handle {
            full: 1,
            raw: Raw::of(Loose::of(boxed)),
        }
    }

    /// Takes the pile out, if there is one.
    pub(crate) fn take(&mut self, alloc: Global) -> Option<Box<KeptPile, Global>>
        ensures taken { MatchOption result (self.old.raw.value ≡ None) (λ boxed. self.old.raw.value ≡ Some boxed.value) }
        ensures left { self.new.raw.value ≡ None }
    {
        let Handle { full, raw } = replace(self, Handle::none(alloc));
        if full == 0 {
            return None;
        }
        Some(raw.into_loose().into_box())
    }
}

/// A handle may go to another thread.
pub fn may_cross() {
    crosses::<Handle>();
}

fn crosses<T: Send>() {}
