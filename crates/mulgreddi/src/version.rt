// The C entry of the version, by which a program finds at run time that it was loaded with another library than it was compiled for.
ghost use Rattle.std.specs.Prelude.{◌≡◌, ◌+◌, ◌*◌};

// The version as one number: major number * 1,000,000 + minor number * 1,000 + patch number. include/mulgreddi.h has the same, for the compiler.
#[unsafe(no_mangle)]
pub extern "C" fn mulgreddi_version() -> u32
    ensures { result ≡ 2 * 1000000 + 4 * 1000 + 0 }
{
    2004000
}
