//! The library's version.

ghost use Rattle.std.specs.Prelude.{◌≡◌, pos};

/// The version as a number: 10,000 times its first part, 100 times its second, and its third.
#[unsafe(no_mangle)]
pub extern "C" fn kbd48_version() -> i32
    ensures version { result ≡ pos 10000 }
{
    10000
}
