//! The version of the library.
ghost use Rattle.std.specs.Prelude.{◌≡◌};
ghost use Rattle.bfd_c.specs.Version.{version};

const MAJOR: u32 = 2;

const MINOR: u32 = 0;

/// The version: the major part times 65,536, and the minor part. It is that of the header.
#[unsafe(no_mangle)]
pub extern "C" fn bfdd_version() -> u32
    ensures { result ≡ version }
{
    MAJOR * 65_536 + MINOR
}
