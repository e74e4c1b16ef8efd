ghost use Rattle.std.specs.Prelude.{◌≡◌};
ghost use Rattle.iom_image.specs.Image.{image_bytes};
ghost use Rattle.iom_image.specs.Loading.{built_in};

/// The image, of version 1, of 1 MiB of memory at physical address 0x80000000, all 0, with no block device.
pub fn built_in() -> [u8; 32]
    ensures { result ≡ image_bytes built_in }
{
    *b"RVIOMMU1\x00\x00\x00\x80\x00\x00\x00\x00\x00\x00\x10\x00\x00\x00\x00\x00\x00\x00\x00\x00\x00\x00\x00\x00"
}
