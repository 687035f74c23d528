//! The sizes of extents.
ghost use Rattle.std.specs.Prelude.{◌≡◌, ◌*◌, ◌^◌, ◌<◌};
ghost use Rattle.vsm_model.specs.Regions.{doublewords};

/// The doublewords of an extent of this many cells of a size in bytes.
pub(crate) fn extent_doublewords(count: u32, size: u32) -> u32
    requires { count * size < 2 ^ 32 }
    ensures { result ≡ doublewords (count * size) }
{
    (count * size).div_ceil(8)
}
