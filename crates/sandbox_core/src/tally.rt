//! How many host calls a run answers, and how.

ghost use Rattle.std.specs.Prelude.{◌≡◌, ◌<◌, ◌==◌, ℕ, if◌then◌else◌, length, slice_index};
ghost use Rattle.wasm_steps.specs.declared.pause.Pause.TheVariants.{Called};
ghost use Rattle.wasi_bodies.specs.laws.Moments.{is_sync};
ghost use Rattle.sandbox_core.specs.Tally.{no_tally};
ghost use Rattle.sandbox_core.specs.internal.Tallying.{TalliesPause, counted};

use wasm_interp::{Errno, HostCall};

/// How many calls were answered with each errno of WASI, that of success first.
pub type Answers = [u64; 77];

/// How many host calls a run answered, how many syncs among them with success, and how many calls with each errno. Each count stops
/// at `u64::MAX`.
#[derive(Clone, Copy)]
pub struct Tally {
    pub calls: u64,
    pub syncs: u64,
    pub answers: Answers,
}

/// Whether a call is a sync.
fn is_sync(call: HostCall) -> bool
    ensures { result ≡ is_sync call }
{
    match call {
        HostCall::FdSync | HostCall::FdDatasync => true,
        _ => false,
    }
}

/// A truth as a number: 1 or 0.
fn count_of(is_so: bool) -> u64
    ensures { result ≡ (if is_so then 1 else 0) }
{
    if is_so { 1 } else { 0 }
}

/// Counts one answer more with this errno.
fn count_answer(answers: &mut [u64], errno: Errno)
    ensures len { length answers.new ≡ length answers.old }
    ensures counts { (k : ℕ) → k < length answers.old
        → slice_index answers.new k ≡ counted (errno.0 == k) (slice_index answers.old k) }
{
    let number = errno.0 as usize;
    if number < answers.len() {
        answers[number] = answers[number].saturating_add(1);
    }
}

impl Tally {
    /// That of no call.
    pub fn none() -> Tally
        ensures { result ≡ no_tally }
    {
        Tally {
            calls: 0,
            syncs: 0,
            answers: [0; 77],
        }
    }

    /// Counts one call more, which was answered so.
    pub(crate) fn add(&mut self, call: HostCall, errno: Errno)
        ensures { TalliesPause (Called call errno) self.old self.new }
    {
        let synced = is_sync(call) && errno == Errno::SUCCESS;
        self.calls = self.calls.saturating_add(1);
        self.syncs = self.syncs.saturating_add(count_of(synced));
        count_answer(&mut self.answers, errno);
    }
}
