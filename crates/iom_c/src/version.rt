//! Which library this is.

ghost use Rattle.std.specs.Prelude.{◌≡◌};
ghost use Rattle.iom_c.specs.Version.{version};

/// The library's version: its three numbers in bits 23:16, 15:8 and 7:0.
#[unsafe(no_mangle)]
pub extern "C" fn rviommu_version() -> u32
    ensures { result ≡ version }
{
    0x000400
}
