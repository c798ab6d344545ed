//! A pile in a box, or none, as C holds it. C gets a pointer to bytes, since it may not see a type with borrows.

ghost use Rattle.std.specs.Prelude.{◌≡◌, Option, Some, None};
ghost use Rattle.chip_library.specs.KeptGames.{KeptGame};
ghost use Rattle.chip_handle.specs.Maybe.{maybe_owns};

use crate::loose::Loose;
use chip_library::KeptPile;
use std::alloc::Global;
use std::marker::{Model, Send};

/// The pointer of a box, or null.
#[repr(C)]
#[derive(Drop)]
pub struct Raw {
    at: *mut u8,
    alloc: Global,
    pub ghost value: { Option KeptGame },
}

impl Model for Raw {
    ghost also_owns = { λ r. maybe_owns r.alloc r.at r.value };
}

// It may go to another thread, as its pile may.
unsafe impl Send for Raw {}

impl Raw {
    /// The null pointer.
    pub fn none(alloc: Global) -> Raw
        ensures { result.value ≡ None }
    {
        Raw {
            at: std::ptr::null_mut(),
            alloc,
        }
    }

    /// The pointer of a box.
    pub fn of(loose: Loose<KeptPile, Global>) -> Raw
        ensures { result.value ≡ Some loose.value }
    {
        let Loose { at, alloc } = loose;
        Raw {
            at: at as *mut u8,
            alloc,
        }
    }

    /// The box of the pointer.
    pub fn into_loose(self) -> Loose<KeptPile, Global>
        requires { (x : KeptGame) × (self.value ≡ Some x) }
        ensures { self.value ≡ Some result.value }
    {
        let Raw { at, alloc } = self;
        Loose {
            at: at as *mut KeptPile,
            alloc,
        }
    }
}
