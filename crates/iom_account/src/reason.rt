//! Why a step was answered as it was.

ghost use Rattle.std.specs.Prelude.{◌≡◌};
ghost use Rattle.std.specs.Option.{option_and_then, option_map};
ghost use Rattle.iom_core.specs.Looking.{by_tables};
ghost use Rattle.iom_core.specs.State.{in_front_of};
ghost use Rattle.iom_tables.specs.Stale.{differing};
ghost use Rattle.iom_account.specs.Account.{address_by};

use crate::origin::NumberedWarrant;
use iom_core::{Board, Request, Way};
use iom_mem::Region;
use iom_tables::differing;

/// Why a step was answered as it was.
#[derive(Clone, Copy, Default)]
pub struct Reason {
    /// The number that the caller gave the step.
    pub number: u64,
    /// The request that the step made of the IOMMU; None if it made no access.
    pub request: Option<Request>,
    /// The origin of the translation that its access used, by the numbers of steps; None if it made no access, or was denied.
    pub origin: Option<NumberedWarrant>,
    /// The physical address that its access was led to, also if memory doesn't reach there; None if it made no access, or was denied.
    pub address: Option<u64>,
    /// If something cached led its access, and the tables in memory said otherwise before the step, the way that the tables said.
    pub stale: Option<Way>,
}

/// The way that the tables lead a request.
pub fn tables_for<M: Region>(board: &Board, ram: &M, request: Option<Request>) -> Option<Way>
    ensures way { result ≡ option_map (by_tables (in_front_of (M.memory ram.now) board.now.iommu)) request }
{
    let request = request?;
    Some(board.lookup_uncached(ram, &request).way)
}

/// The physical address that a way leads a request to; None if it is denied.
pub fn address_by(request: Option<Request>, way: &Way) -> Option<u64>
    ensures address { result ≡ address_by request way.now }
{
    way.address(request?.iova).ok()
}

/// The way of the tables, if the access was led another way.
pub fn stale_by(now: &Way, tables: Option<Way>) -> Option<Way>
    ensures way { result ≡ option_and_then (differing now.now) tables }
{
    differing(now, tables?)
}
