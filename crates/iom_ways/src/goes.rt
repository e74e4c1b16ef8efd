//! Where ways take a request.

ghost use Rattle.std.specs.Prelude.{◌≡◌, ◌↔◌, IsTrue};
ghost use Rattle.iom_core.specs.Access.{address_on};

use iom_core::Way;

/// Whether two ways take this IOVA to the same place: to one physical address, or to denials with the same cause and iotval2, of which both make
/// a record or none does. The ways themselves may differ.
pub fn goes_alike(way: &Way, other: &Way, iova: u64) -> bool
    ensures { IsTrue result ↔ (address_on way.now iova ≡ address_on other.now iova) }
{
    way.address(iova) == other.address(iova)
}
