ghost use Rattle.std.specs.Prelude.{◌≡◌};
ghost use Rattle.iom_c.specs.Reasons.{located_of, no_context, plain_way, way_of};

use crate::places::{ContextPlace, context_of};
use iom_tables::{Located, Way};

/// The way that a request is led, in C `struct rviommu_way`. What its kind doesn't have is 0.
#[repr(C)]
#[derive(Drop)]
pub struct RequestWay {
    /// The device's context, of kinds 1 and 2.
    pub context: ContextPlace,
    /// The PPN of the page's frame, of kind 2: its physical address divided by 4096. 44 bits; 52 if both stages are Bare.
    pub frame: u64,
    /// Of a guest page fault the guest-physical address, in the form of a fault record's iotval2; else 0.
    pub iotval2: u64,
    /// 0 by ddtp, whose mode is Bare; 1 by a context whose stages are both Bare, without an MSI page table; 2 by the stages of a context; 3 nowhere.
    pub kind: u32,
    /// The level of the first stage's leaf, 0 to 4, of kind 2; 0 if that stage is Bare.
    pub level: u32,
    /// The cause of the fault, of kind 3 ("Fault/Event-Queue (FQ)", CAUSE).
    pub cause: u32,
    /// Whether the first stage's mapping is global, of kind 2.
    pub is_global: bool,
    /// Whether the denial makes a fault record, of kind 3.
    pub is_reported: bool,
    /// Whether the first stage's leaf maps 64 KiB ("Svnapot"), of kind 2.
    pub is_napot: bool,
    /// Room for more; 0.
    pub reserved: [u64; 2],
}

/// What ddtp and the directory say of a device id, in C `struct rviommu_located`.
#[repr(C)]
#[derive(Drop)]
pub struct LocatedContext {
    /// The device's context, of kind 1.
    pub context: ContextPlace,
    /// 0 if ddtp's mode has no directory, 1 if there is a context, 2 if there is none.
    pub kind: u32,
    /// Why there is none, of kind 2 ("Process to locate the Device-context").
    pub cause: u32,
    /// Room for more; 0.
    pub reserved: [u64; 2],
}

// No context.
fn no_context() -> ContextPlace
    ensures { result ≡ no_context }
{
    ContextPlace {
        gppn: 0,
        ppn: 0,
        did: 0,
        pscid: 0,
        gscid: 0,
        gmode: 0,
        mode: 0,
        custom: 0,
        dtf: false,
        tav: false,
        reserved: [0; 2],
    }
}

/// A way of this kind, with 0 in all other fields.
pub fn plain_way(kind: u32) -> RequestWay
    ensures { result ≡ plain_way kind }
{
    RequestWay {
        context: no_context(),
        frame: 0,
        iotval2: 0,
        kind,
        level: 0,
        cause: 0,
        is_global: false,
        is_reported: false,
        is_napot: false,
        reserved: [0; 2],
    }
}

/// The way of a request of device `did`, for C.
pub fn way_of(did: u32, way: Way) -> RequestWay
    ensures { result ≡ way_of did way }
{
    match way {
        Way::Register => plain_way(0),
        Way::Context(context) => RequestWay {
            context: context_of(did, context),
            ..plain_way(1)
        },
        Way::Walked(context, hit) => RequestWay {
            context: context_of(did, context),
            frame: hit.frame,
            level: u32::from(hit.level),
            is_global: hit.global,
            is_napot: hit.napot,
            ..plain_way(2)
        },
        Way::Denied(denial) => RequestWay {
            cause: u32::from(denial.cause.number()),
            iotval2: denial.iotval2,
            is_reported: denial.reported,
            ..plain_way(3)
        },
    }
}

/// What ddtp and the directory say of device `did`, for C.
pub fn located_of(did: u32, located: Located) -> LocatedContext
    ensures { result ≡ located_of did located }
{
    let (context, kind, cause) = match located {
        Located::NoDirectory => (no_context(), 0, 0),
        Located::Context(context) => (context_of(did, context), 1, 0),
        Located::Fault(cause) => (no_context(), 2, u32::from(cause.number())),
    };
    LocatedContext {
        context,
        kind,
        cause,
        reserved: [0; 2],
    }
}
