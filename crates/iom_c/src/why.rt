ghost use Rattle.std.specs.Prelude.{◌≡◌};
ghost use Rattle.iom_c.specs.Why.{asked_by, led_by, plain_reason, reason_of, used_by};

use crate::ways::{RequestWay, plain_way, way_of};
use iom_account::{NumberedWarrant, Reason};
use iom_bits::Kind;
use iom_core::Request;

/// Why a step went as it did, in C `struct rviommu_why`. What its kind doesn't have is 0.
#[repr(C)]
#[derive(Drop)]
pub struct StepReason {
    /// The way that the tables said of its access before the step, if it was stale.
    pub way: RequestWay,
    /// The number of the step.
    pub number: u64,
    /// The IOVA of the access, of kinds 1 to 4.
    pub iova: u64,
    /// The number of the step that filled a context: of kind 3 the one that led the access, of kind 4 the one under which its page
    /// was filled.
    pub context: u64,
    /// The number of the step that filled its page, of kind 4.
    pub walk: u64,
    /// The number of the step that filled the context in force at the access, of kind 4.
    pub current: u64,
    /// The device id, 24 bits, of kinds 1 to 4.
    pub did: u32,
    /// 0 no access; 1 denied; 2 led by ddtp, 3 by a context whose stages are both Bare, without an MSI page table, 4 by the stages of a context.
    pub kind: u32,
    /// Whether the access was a write, of kinds 1 to 4.
    pub is_write: bool,
    /// Whether the access was stale.
    pub is_stale: bool,
    /// The physical address that the access was led to, of kinds 2 to 4.
    pub address: u64,
    /// Room for more; 0.
    pub reserved: [u64; 3],
}

// A reason with nothing but its step's number and its kind.
fn plain_reason(number: u64, kind: u32) -> StepReason
    ensures { result ≡ plain_reason number kind }
{
    StepReason {
        way: plain_way(0),
        number,
        iova: 0,
        context: 0,
        walk: 0,
        current: 0,
        did: 0,
        kind,
        is_write: false,
        is_stale: false,
        address: 0,
        reserved: [0; 3],
    }
}

// A reason of a step that asked this.
fn asked_by(number: u64, kind: u32, request: Request) -> StepReason
    ensures { result ≡ asked_by number kind request }
{
    StepReason {
        iova: request.iova,
        did: request.did,
        is_write: matches!(request.kind, Kind::Write),
        ..plain_reason(number, kind)
    }
}

// Of one whose access was let through.
fn led_by(number: u64, request: Request, origin: NumberedWarrant) -> StepReason
    ensures { result ≡ led_by number request origin }
{
    match origin {
        NumberedWarrant::Register => asked_by(number, 2, request),
        NumberedWarrant::Context { context } => StepReason {
            context,
            ..asked_by(number, 3, request)
        },
        NumberedWarrant::Walked {
            context,
            walk,
            current,
        } => StepReason {
            context,
            walk,
            current,
            ..asked_by(number, 4, request)
        },
    }
}

// What a step asked, and where the translation came from that it used.
fn used_by(number: u64, request: Option<Request>, origin: Option<NumberedWarrant>) -> StepReason
    ensures { result ≡ used_by number request origin }
{
    match (request, origin) {
        (None, _) => plain_reason(number, 0),
        (Some(request), None) => asked_by(number, 1, request),
        (Some(request), Some(origin)) => led_by(number, request, origin),
    }
}

/// Why a step went as it did, for C.
pub fn reason_of(reason: &Reason) -> StepReason
    ensures { result ≡ reason_of reason.now }
{
    let used = StepReason {
        address: reason.address.unwrap_or(0),
        ..used_by(reason.number, reason.request, reason.origin)
    };
    match (reason.request, reason.stale) {
        (Some(request), Some(way)) => StepReason {
            way: way_of(request.did, way),
            is_stale: true,
            ..used
        },
        _ => used,
    }
}
