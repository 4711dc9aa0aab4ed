//! Which version of the library this is.

ghost use Rattle.std.specs.Prelude.{◌≡◌};
ghost use Rattle.g1heap_c.specs.Versions.{version_number};

/// The library's version as a number, of three that are below 256.
#[unsafe(no_mangle)]
pub extern "C" fn g1_version() -> u32
    ensures { result ≡ version_number 0 1 0 }
{
    const MAJOR: u32 = 0;
    const MINOR: u32 = 1;
    const PATCH: u32 = 0;
    MAJOR * 65536 + MINOR * 256 + PATCH
}
