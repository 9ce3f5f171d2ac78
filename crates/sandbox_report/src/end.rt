//! How a run ended.

ghost use Rattle.std.specs.Prelude.{◌≡◌};
ghost use Rattle.sandbox_report.specs.Ends.{end_code, end_offset, end_text, is_machines, label_of};
ghost use Rattle.sandbox_report.specs.Ends.{outcome_number, trap_number};

use crate::fault::Fault;
use meanings::{end_label, trap_text};
use wasm_steps::{Outcome, Trap};

/// The numbers of the ends of a run that began, as the header has them.
const EXITED: u32 = 0;

const TRAPPED: u32 = 1;

const OUT_OF_FUEL: u32 = 2;

const OUT_OF_MEMORY: u32 = 3;

/// How a run ended.
#[derive(Clone, Copy)]
pub enum End {
    /// The guest ran, and its run ended so.
    Ran(Outcome),
    /// It could not begin.
    Refused(Fault),
}

/// The number of a trap. Hosts have it compiled in, so a number never moves: a trap to come has one behind the last.
pub fn trap_number(trap: Trap) -> u32
    ensures { result ≡ trap_number trap }
{
    match trap {
        Trap::Unreachable => 0,
        Trap::DivideByZero => 1,
        Trap::IntegerOverflow => 2,
        Trap::OutOfBoundsMemory => 3,
        Trap::UndefinedElement => 4,
        Trap::UninitializedElement => 5,
        Trap::IndirectCallMismatch => 6,
        Trap::CallStackExhausted => 7,
        Trap::InvalidConversion => 8,
    }
}

/// The number of the end of a run that began, as the header has it.
pub fn outcome_number(outcome: Outcome) -> u32
    ensures { result ≡ outcome_number outcome }
{
    match outcome {
        Outcome::Exited(_) => EXITED,
        Outcome::Trapped(_) => TRAPPED,
        Outcome::OutOfFuel => OUT_OF_FUEL,
        Outcome::OutOfMemory => OUT_OF_MEMORY,
    }
}

impl End {
    /// What the report calls it.
    pub fn label(self) -> &'static str
        ensures { result.now ≡ label_of self }
    {
        match self {
            End::Ran(outcome) => end_label(outcome_number(outcome)),
            End::Refused(fault) => match fault.number() {
                Some(_) => "fault",
                None => end_label(OUT_OF_MEMORY),
            },
        }
    }

    /// The guest's whole status, the number of a trap or of a fault; none where fuel or memory was wanting.
    pub fn code(self) -> Option<u32>
        ensures { result ≡ end_code self }
    {
        match self {
            End::Ran(Outcome::Exited(status)) => Some(status),
            End::Ran(Outcome::Trapped(trap)) => Some(trap_number(trap)),
            End::Ran(Outcome::OutOfFuel | Outcome::OutOfMemory) => None,
            End::Refused(fault) => fault.number(),
        }
    }

    /// The trap or the fault in words; else nothing.
    pub fn text(self) -> &'static str
        ensures { result.now ≡ end_text self }
    {
        match self {
            End::Ran(Outcome::Trapped(trap)) => trap_text(trap_number(trap)),
            End::Ran(_) => "",
            End::Refused(fault) => fault.text(),
        }
    }

    /// Where in the module's bytes the fault is, of a fault of the module.
    pub fn offset(self) -> Option<u32>
        ensures { result ≡ end_offset self }
    {
        match self {
            End::Ran(_) => None,
            End::Refused(fault) => fault.offset(),
        }
    }

    /// Whether the machine is to blame: for a file or a device that failed, and for memory that was
    /// wanting before the guest ran.
    pub fn is_machines(self) -> bool
        ensures { result ≡ is_machines self }
    {
        match self {
            End::Ran(_) => false,
            End::Refused(fault) => matches!(fault.number(), None | Some(33) | Some(41)),
        }
    }
}
