//! What the report of a run says.

ghost use Rattle.std.specs.Prelude.{◌≡◌};
ghost use Rattle.sandbox_report.specs.Reporting.{blame_of, cut_text, kept_text};

use crate::end::End;

/// What became of the volume of a run.
#[derive(Clone, Copy)]
pub enum VolumeEnd {
    /// The run names no volume, or ended before one was open, and no device failed.
    None,
    /// All of the guest's calls are on it.
    Kept,
    /// Its device failed, so that the last of them may not be.
    Failed,
}

/// Which of a guest's streams were refused more than they take at most.
#[derive(Clone, Copy)]
pub struct CutStreams {
    pub output: bool,
    pub errors: bool,
}

/// How a run ended and what it used.
#[derive(Clone, Copy)]
pub struct Summary {
    pub end: End,
    /// The status of the process.
    pub status: u8,
    /// The units of fuel that were used, of `fuel`.
    pub units: u64,
    pub fuel: u64,
    /// The pages of 65,536 bytes that the guest's memory has at the end.
    pub pages: u32,
    /// The bytes of standard input that the guest took.
    pub read: u64,
    /// The bytes that it gave to standard output, and to standard error.
    pub written: u64,
    pub complained: u64,
    /// The calls of WASI that were answered, and the syncs among them that were answered with success.
    pub calls: u64,
    pub syncs: u64,
    pub volume: VolumeEnd,
    /// Whether no output refused to be flushed.
    pub flushed: bool,
    /// Whether a read or a write of a stream failed.
    pub broken: bool,
    pub cut: CutStreams,
}

impl VolumeEnd {
    /// What the report calls it.
    pub fn text(self) -> &'static str
        ensures { result.now ≡ kept_text self }
    {
        match self {
            VolumeEnd::None => "none",
            VolumeEnd::Kept => "kept",
            VolumeEnd::Failed => "failed",
        }
    }
}

impl CutStreams {
    /// What the report calls it.
    pub fn text(self) -> &'static str
        ensures { result.now ≡ cut_text self }
    {
        match (self.output, self.errors) {
            (false, false) => "none",
            (true, false) => "output",
            (false, true) => "errors",
            (true, true) => "both",
        }
    }
}

impl Summary {
    /// Who is to blame for the end, or has brought it about where it is a good one: the machine where a file, a device or
    /// memory before the guest ran failed, where a read or a write of a stream failed, or an output couldn't be flushed;
    /// else the guest.
    pub fn blame(&self) -> &'static str
        ensures { result.now ≡ blame_of self.now }
    {
        let stream_failed = !self.flushed || self.broken;
        if self.end.is_machines() || matches!(self.volume, VolumeEnd::Failed) || stream_failed {
            "machine"
        } else {
            "guest"
        }
    }
}
