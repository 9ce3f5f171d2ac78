//! What gets a volume, or the tree of one, at the end.

ghost use Rattle.std.specs.Prelude.{string_bytes};
ghost use Rattle.sandbox_device.specs.Named.{IsForName, IsForName-prop};

use sandbox_device::Replacement;
use std::io;

/// A file that is to be replaced, with the name that it was opened under.
#[derive(Drop)]
pub struct Receiver {
    pub name: String,
    pub file: Replacement,
    pub ghost of_name: { IsForName (string_bytes name) file } by { IsForName-prop (string_bytes name) file },
}

impl Receiver {
    /// Opens what is there under a name, as `Replacement::open` does.
    pub fn open(rt: &HostRuntime, name: &str) -> io::Result<Receiver> {
        let file = Replacement::open(rt, name)?;
        let name = String::from_str(rt.alloc(), name)?;
        Ok(Receiver { name, file })
    }
}
