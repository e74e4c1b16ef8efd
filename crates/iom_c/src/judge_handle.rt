ghost use Rattle.std.specs.Prelude.{◌≡◌, Option, Some, None, IsSome};
ghost use Rattle.iom_c.specs.Trials.{judge_owns};
ghost use Rattle.iom_c.specs.declared.trying.OwnedTrial.{OwnedTrial};

use crate::parts::Parts;
use crate::trying::OwnedTrial;
use std::alloc::Global;
use std::marker::Model;
use std::mem::replace;

/// What C holds: `rviommu_judge_t`. An open one owns the lines of a trace by now, on the heap, a closed one nothing.
#[repr(C)]
#[derive(Drop)]
pub struct JudgeHandle {
    at: *mut u8,
    alloc: Global,
    /// What it owns; None while it is closed.
    pub ghost held: { Option OwnedTrial },
}

impl Model for JudgeHandle {
    ghost also_owns = { λ h. judge_owns h.alloc h.at h.held };
}

impl JudgeHandle {
    /// A closed handle: a null pointer.
    pub fn closed(alloc: Global) -> JudgeHandle
        ensures { result.held ≡ None }
    {
        JudgeHandle {
            at: std::ptr::null_mut(),
            alloc,
        }
    }

    /// A handle that owns what the box did.
    pub fn of(held: Box<OwnedTrial>) -> JudgeHandle
        ensures { result.held ≡ Some held.value }
    {
        JudgeHandle::of_parts(Parts::of(held))
    }

    /// Takes out what an open handle owns, which is closed from then on.
    pub fn take(&mut self, alloc: Global) -> Box<OwnedTrial>
        requires { IsSome self.old.held }
        ensures held { self.old.held ≡ Some result.value }
        ensures closed { self.new.held ≡ None }
    {
        replace(self, JudgeHandle::closed(alloc))
            .into_parts()
            .into_box()
    }

    fn of_parts(parts: Parts<OwnedTrial, Global>) -> JudgeHandle
        ensures { result.held ≡ Some parts.value }
    {
        let Parts { ptr, alloc } = parts;
        JudgeHandle {
            at: ptr as *mut u8,
            alloc,
        }
    }

    fn into_parts(self) -> Parts<OwnedTrial, Global>
        requires { IsSome self.held }
        ensures { self.held ≡ Some result.value }
    {
        let JudgeHandle { at, alloc } = self;
        Parts {
            ptr: at as *mut OwnedTrial,
            alloc,
        }
    }
}
