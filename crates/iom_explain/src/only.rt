//! Which accesses are printed.

ghost use Rattle.std.specs.Prelude.{◌≡◌, false, is_some};
ghost use Rattle.iom_explain.specs.Explaining.{if_told, is_told};

use iom_debug::{OutputPage, StaleAccess, UnsettledAccess};

/// The accesses that are printed, if not all are.
#[derive(Clone, Copy)]
pub struct Only {
    /// Those that are denied.
    pub denied: bool,
    /// Those that are stale.
    pub stale: bool,
    /// Those that aren't settled.
    pub unsettled: bool,
}

// Whether a step is printed whose access is denied, stale or unsettled, or not; of a step without an access none.
fn is_told(only: Option<Only>, denied: bool, stale: bool, unsettled: bool) -> bool
    ensures { result ≡ is_told only denied stale unsettled }
{
    match only {
        None => true,
        Some(only) => {
            (only.denied && denied) || (only.stale && stale) || (only.unsettled && unsettled)
        }
    }
}

// Empties a page that isn't printed.
fn keep_if(out: &mut OutputPage, told: bool)
    ensures { out.new.items ≡ if_told told out.old.items }
{
    if !told {
        out.clear();
    }
}

/// Empties a page that has a step without an access, if only accesses are printed.
pub fn keep_line(out: &mut OutputPage, only: Option<Only>)
    ensures { out.new.items ≡ if_told (is_told only false false false) out.old.items }
{
    keep_if(out, is_told(only, false, false, false));
}

/// Empties a page that has a step with its access, if only accesses are printed and this isn't one of them.
pub fn keep_access(
    out: &mut OutputPage,
    only: Option<Only>,
    denied: &Option<u16>,
    stale: &Option<StaleAccess>,
    unsettled: &Option<UnsettledAccess>,
)
    ensures { out.new.items ≡ if_told (is_told only (is_some denied.now) (is_some stale.now) (is_some unsettled.now)) out.old.items }
{
    let told = is_told(only, denied.is_some(), stale.is_some(), unsettled.is_some());
    keep_if(out, told);
}
