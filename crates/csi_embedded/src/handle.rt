//! What a C program holds.
ghost use Rattle.std.specs.Prelude.{◌≡◌, Some, None, is_some, option_map};

use crate::embedded::Embedded;
use crate::held::Held;
use crate::opened::Opened;
use std::alloc::Global;

/// A handle of a plugin, or of none: `struct { void *at; bool full; }` of C, where a struct of zeros is one of none. This profile's own.
#[repr(C)]
#[derive(Drop)]
pub struct Handle {
    held: Held,
    full: bool,
    ghost agrees: { full ≡ is_some held.embedded },
}

impl Handle {
    // It has no plugin.
    fn empty(alloc: Global) -> Handle
        ensures { result.held.embedded ≡ None }
    {
        Handle {
            held: Held::empty(alloc),
            full: false,
        }
    }

    /// It has this plugin. It takes no memory.
    pub(crate) fn of(embedded: Box<Embedded>) -> Handle
        ensures { result.held.embedded ≡ Some embedded.value }
    {
        Handle {
            held: Held::of(Opened::of(embedded)),
            full: true,
        }
    }

    /// Whether it has a plugin. It takes no memory.
    pub(crate) fn is_full(&self) -> bool
        ensures { result ≡ is_some self.now.held.embedded }
    {
        self.full
    }

    /// Takes the plugin out, if it has one. It takes no memory.
    pub(crate) fn take(&mut self, alloc: Global) -> Option<Box<Embedded>>
        ensures taken { option_map (λ embedded. embedded.value) result ≡ self.old.held.embedded }
        ensures left { self.new.held.embedded ≡ None }
    {
        if !self.full {
            return None;
        }
        let Handle { held, full: _ } = std::mem::replace(self, Handle::empty(alloc));
        Some(held.open().close())
    }
}
