use crate::access::{Denial, in_frame};
use iom_ddt::Context;
use iom_nested::Hit;

/// The way that a request is led (RISC-V IOMMU Architecture 1.0, "Process to translate an IOVA").
#[derive(Clone, Copy, PartialEq)]
pub enum Way {
    /// By ddtp, whose mode is Bare: the physical address is the IOVA.
    Register,
    /// By this context of the device, both of whose stages are Bare, without an MSI page table: the physical address is the IOVA.
    Context(Context),
    /// By the stages of this context of the device, which lead the IOVA's page to this frame.
    Walked(Context, Hit),
    /// Nowhere.
    Denied(Denial),
}

impl Way {
    ghost use Rattle.std.specs.Prelude.{◌≡◌, ◌↔◌, IsTrue};
    ghost use Rattle.iom_core.specs.Access.{address_on};

    /// Whether two ways are one: both by the register, or by equal contexts and to equal frames, or denied alike.
    pub fn is_same(&self, other: &Way) -> bool
        ensures { IsTrue result ↔ (self.now ≡ other.now) }
    {
        match (self, other) {
            (Way::Register, Way::Register) => true,
            (Way::Context(context), Way::Context(its_context)) => context.is_same(its_context),
            (Way::Walked(context, hit), Way::Walked(its_context, its_hit)) => {
                context.is_same(its_context) && hit == its_hit
            }
            (Way::Denied(denial), Way::Denied(its_denial)) => denial == its_denial,
            _ => false,
        }
    }

    /// The physical address to which the way leads this IOVA, also if memory doesn't reach there; or its denial.
    pub fn address(&self, iova: u64) -> Result<u64, Denial>
        ensures { result ≡ address_on self.now iova }
    {
        match *self {
            Way::Register | Way::Context(_) => Ok(iova),
            Way::Walked(_, hit) => Ok(in_frame(&hit, iova)),
            Way::Denied(denial) => Err(denial),
        }
    }
}
