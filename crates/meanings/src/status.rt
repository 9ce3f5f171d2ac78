//! What the process of a command ends with.

ghost use Rattle.std.specs.Prelude.{◌≡◌};
ghost use Rattle.meanings.specs.Status.{status_of_fault};

/// The greatest status that is the guest's own; it stands for all above it, too.
pub const GREATEST: u8 = 119;

/// The guest trapped.
pub const TRAPPED: u8 = 120;

/// The fuel is used up.
pub const OUT_OF_FUEL: u8 = 121;

/// Memory was refused, to the guest or to the command.
pub const OUT_OF_MEMORY: u8 = 122;

/// A run has ended, and its calls couldn't be committed.
pub const NOT_COMMITTED: u8 = 123;

/// A fault or an errno, which a line names by its number.
pub const FAULT: u8 = 124;

/// The command line is refused, or help or the version was asked for.
pub const REFUSED: u8 = 125;

/// The number that the library answers where memory was refused. The program has a line and a status for it, and no number.
pub const MEMORY_REFUSED: u32 = 40;

/// The status of a command that ends with this fault.
pub fn status_of_fault(number: u32) -> u8
    ensures { result ≡ status_of_fault number }
{
    match number {
        MEMORY_REFUSED => OUT_OF_MEMORY,
        _ => FAULT,
    }
}
