//! The version.

ghost use Rattle.std.specs.Prelude.{◌≡◌};

/// The version of the library: 10,000 times its first number, 100 times the second, and the third.
#[unsafe(no_mangle)]
pub extern "C" fn cssmin_version() -> u32
    ensures { result ≡ 10000 }
{
    10_000
}
