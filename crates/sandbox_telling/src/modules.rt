//! Which modules a command takes.

ghost use Rattle.std.specs.Prelude.{◌≡◌};
ghost use Rattle.sandbox_telling.specs.Modules.{profile_for};

use wasm_module::Profile;

/// What the words of a command take: floats where they say so.
pub fn profile_for(floats: bool) -> Profile
    ensures { result ≡ profile_for floats }
{
    if floats {
        Profile::Floats
    } else {
        Profile::Integers
    }
}
