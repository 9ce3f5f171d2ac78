//! What a host hands in of a guest.

ghost use Rattle.std.specs.Prelude.{◌≡◌};
ghost use Rattle.sandbox_host.specs.Supplies.{profile_of};

use sandbox_core::{Preopen, Settings};
use wasm_module::Profile;

/// The pages of memory that a guest may have where its host names no number.
const PAGES: u32 = 1_024;

/// And the values on its stack.
const VALUES: u32 = 1_048_576;

/// And the bytes on each of its streams.
const OUTPUT: u64 = 16_777_216;

/// What a module may hold: floats, where that isn't 0.
pub(crate) fn profile_of(floats: u32) -> Profile
    ensures { result ≡ profile_of floats }
{
    if floats == 0 {
        Profile::Integers
    } else {
        Profile::Floats
    }
}

/// The most that a guest may have. 0 stands for the default of each.
#[repr(C)]
#[derive(Clone, Copy)]
pub struct SessionLimits {
    /// Pages of memory, of 65,536 bytes.
    pub pages: u32,
    /// Values on its stack, of 8 bytes.
    pub values: u32,
    /// Bytes that it writes to descriptor 1, and as many to 2.
    pub output: u64,
    /// Limits to come, each 0.
    pub later: [u64; 6],
}

impl SessionLimits {
    ghost use Rattle.sandbox_host.specs.Supplies.{most_pages, most_values, most_output, is_known};

    /// Whether no limit is named that isn't known yet.
    pub(crate) fn is_known(&self) -> bool
        ensures { result ≡ is_known self.now }
    {
        self.later.iter().all(|limit| *limit == 0)
    }

    /// The pages of memory that it may have.
    pub(crate) fn most_pages(&self) -> u32
        ensures { result ≡ most_pages self.now }
    {
        if self.pages == 0 { PAGES } else { self.pages }
    }

    /// The values that it may have on its stack.
    pub(crate) fn most_values(&self) -> u32
        ensures { result ≡ most_values self.now }
    {
        if self.values == 0 {
            VALUES
        } else {
            self.values
        }
    }

    /// The bytes that it may write to descriptor 1, and as many to 2.
    pub(crate) fn most_output(&self) -> u64
        ensures { result ≡ most_output self.now }
    {
        if self.output == 0 {
            OUTPUT
        } else {
            self.output
        }
    }
}

/// What a guest is given: its settings, and the bytes of its descriptor 0.
#[repr(C)]
#[derive(Clone, Copy)]
pub struct Supplies<'a> {
    /// The arguments, the program's name first.
    pub args: &'a [&'a [u8]],
    /// The environment, each text as `NAME=VALUE`.
    pub env: &'a [&'a [u8]],
    /// The directories that the guest finds open.
    pub preopens: &'a [Preopen<'a>],
    /// The time of day, in nanoseconds since 1970-01-01 00:00:00 UTC.
    pub moment: u64,
    /// What the guest gets where it asks for random bytes.
    pub random: &'a [u8],
    /// The most that it may have.
    pub limits: SessionLimits,
    /// What it reads.
    pub input: &'a [u8],
}

impl<'a> Supplies<'a> {
    ghost use Rattle.sandbox_host.specs.Supplies.{settings_of};

    /// The settings of a session.
    pub(crate) fn settings(&self) -> Settings<'a, 'a>
        ensures { result ≡ settings_of self.now }
    {
        Settings {
            args: self.args,
            env: self.env,
            preopens: self.preopens,
            moment: self.moment,
            random: self.random,
            pages: self.limits.most_pages(),
        }
    }
}
