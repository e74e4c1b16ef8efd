ghost use Rattle.std.specs.Prelude.{◌≡◌, Option, Some, None, IsSome};
ghost use Rattle.iom_c.specs.Handles.{handle_owns};
ghost use Rattle.iom_c.specs.declared.owned.Owned.{Owned};

use crate::owned::Owned;
use crate::parts::Parts;
use std::alloc::Global;
use std::marker::Model;
use std::mem::replace;

/// What C holds: `rviommu_t`. An open one owns a platform and its trace on the heap, a closed one nothing.
#[repr(C)]
#[derive(Drop)]
pub struct Handle {
    at: *mut u8,
    alloc: Global,
    /// What it owns; None while it is closed.
    pub ghost held: { Option Owned },
}

impl Model for Handle {
    ghost also_owns = { λ h. handle_owns h.alloc h.at h.held };
}

impl Handle {
    /// A closed handle: a null pointer.
    pub fn closed(alloc: Global) -> Handle
        ensures { result.held ≡ None }
    {
        Handle {
            at: std::ptr::null_mut(),
            alloc,
        }
    }

    /// A handle that owns what the box did.
    pub fn of(held: Box<Owned>) -> Handle
        ensures { result.held ≡ Some held.value }
    {
        Handle::of_parts(Parts::of(held))
    }

    /// Takes out what an open handle owns, which is closed from then on.
    pub fn take(&mut self, alloc: Global) -> Box<Owned>
        requires { IsSome self.old.held }
        ensures held { self.old.held ≡ Some result.value }
        ensures closed { self.new.held ≡ None }
    {
        replace(self, Handle::closed(alloc)).into_parts().into_box()
    }

    fn of_parts(parts: Parts<Owned, Global>) -> Handle
        ensures { result.held ≡ Some parts.value }
    {
        let Parts { ptr, alloc } = parts;
        Handle {
            at: ptr as *mut u8,
            alloc,
        }
    }

    fn into_parts(self) -> Parts<Owned, Global>
        requires { IsSome self.held }
        ensures { self.held ≡ Some result.value }
    {
        let Handle { at, alloc } = self;
        Parts {
            ptr: at as *mut Owned,
            alloc,
        }
    }
}
