//! The version of the program and of the library.

ghost use Rattle.std.specs.Prelude.{◌≡◌};
ghost use Rattle.meanings.specs.Version.{version_number};

/// The version.
pub const VERSION: &str = "0.9.18";

/// The number of the version: 1,000,000 times the major number, 1,000 times the minor one, and the patch.
pub const VERSION_NUMBER: u32 = 9_018;

/// A law: both are the same version.
pub fn version_has_its_number()
    ensures { VERSION_NUMBER ≡ version_number VERSION.now }
{}
