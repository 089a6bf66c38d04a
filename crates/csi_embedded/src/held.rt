//! A pointer as C holds it, to a plugin or to nothing.
ghost use Rattle.std.specs.Prelude.{◌≡◌, Option, Some, None};
ghost use Rattle.csi_embedded.specs.Private.Holding.{held_owns, held_coded};
ghost use Rattle.csi_embedded.specs.contracts.embedded.Embedded.{the_row};

use crate::embedded::Embedded;
use crate::opened::Opened;
use std::alloc::Global;
use std::marker::Model;

/// A pointer whose type names nothing of what it leads to, so that it may cross to C; the value that it owns, if it owns one, is known to
/// proofs alone. It is `Drop` so that an empty one may be let go: one that isn't is taken first.
#[repr(C)]
#[derive(Drop)]
pub struct Held {
    at: *mut u8,
    alloc: Global,
    pub ghost embedded: { Option the_row.Denot } by { held_coded },
}

impl Model for Held {
    ghost also_owns = { λ held. held_owns held.alloc held.at held.embedded };
}

impl Held {
    /// It leads to nothing. It takes no memory.
    pub fn empty(alloc: Global) -> Held
        ensures { result.embedded ≡ None }
    {
        Held {
            at: std::ptr::null_mut(),
            alloc,
        }
    }

    /// It leads to what the box had. It takes no memory.
    pub(crate) fn of(opened: Opened<Embedded, Global>) -> Held
        ensures { result.embedded ≡ Some opened.value }
    {
        let Opened { at, alloc } = opened;
        Held {
            at: at as *mut u8,
            alloc,
        }
    }

    /// What it leads to. It takes no memory.
    pub(crate) fn open(self) -> Opened<Embedded, Global>
        requires { (embedded : the_row.Denot) × (self.embedded ≡ Some embedded) }
        ensures { Some result.value ≡ self.embedded }
    {
        let Held { at, alloc } = self;
        Opened {
            at: at as *mut Embedded,
            alloc,
        }
    }
}
