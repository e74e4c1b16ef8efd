ghost use Rattle.std.specs.Prelude.{◌≡◌};
ghost use Rattle.iom_c.specs.Judging.{owed_of, unsettled_of};

use crate::ways::{RequestWay, way_of};
use iom_bits::Kind;
use iom_owed::{Owed, Unsettled};

/// Where a request that isn't settled may be led, in C `struct rviommu_unsettled`.
#[repr(C)]
#[derive(Drop)]
pub struct UnsettledRequest {
    /// A way by entries that an IOMMU may hold.
    pub elsewhere: RequestWay,
    /// The way by the tables, which differs.
    pub tables: RequestWay,
    /// The number of the newest step that could read an entry which alone leads the request elsewhere; 0 if there is none.
    pub number: u64,
    /// Whether there is such an entry.
    pub has_number: bool,
    /// Whether a command names that entry that isn't fenced yet.
    pub is_unfenced: bool,
    /// The number of the step of the newest such command; 0 if there is none.
    pub unfenced: u64,
    /// Room for more; 0.
    pub reserved: [u64; 2],
}

/// A request that was made and isn't settled now, in C `struct rviommu_owed`.
#[repr(C)]
#[derive(Drop)]
pub struct OwedRequest {
    /// Where it may be led.
    pub unsettled: UnsettledRequest,
    /// The IOVA of the first byte of its page.
    pub iova: u64,
    /// The number of the newest step that made it, for any byte of this page.
    pub number: u64,
    /// The device id, 24 bits.
    pub did: u32,
    /// Whether it is a write.
    pub is_write: bool,
    /// Room for more; 0.
    pub reserved: [u64; 3],
}

/// Where a request of device `did` may be led, for C.
pub fn unsettled_of(did: u32, found: &Unsettled) -> UnsettledRequest
    ensures { result ≡ unsettled_of did found.now }
{
    UnsettledRequest {
        elsewhere: way_of(did, found.elsewhere),
        tables: way_of(did, found.tables),
        number: found.read_in().unwrap_or(0),
        has_number: found.read_in().is_some(),
        is_unfenced: found.unfenced().is_some(),
        unfenced: found.unfenced().unwrap_or(0),
        reserved: [0; 2],
    }
}

/// A request that is owed, for C.
pub fn owed_of(owed: &Owed) -> OwedRequest
    ensures { result ≡ owed_of owed.now }
{
    let request = &owed.made.request;
    OwedRequest {
        unsettled: unsettled_of(request.did, &owed.unsettled),
        iova: request.iova,
        number: owed.made.number,
        did: request.did,
        is_write: matches!(request.kind, Kind::Write),
        reserved: [0; 3],
    }
}
