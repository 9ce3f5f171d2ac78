//! The calls of a host, and what it answers.

/// What a host's call is to do, by its name in WASI snapshot preview 1.
#[derive(Clone, Copy, Debug, PartialEq, Eq)]
pub enum HostCall {
    ArgsSizesGet,
    ArgsGet,
    EnvironSizesGet,
    EnvironGet,
    ClockResGet,
    ClockTimeGet,
    RandomGet,
    ProcExit,
    FdClose,
    FdFdstatGet,
    FdFilestatGet,
    FdFilestatSetSize,
    FdPrestatGet,
    FdPrestatDirName,
    FdRead,
    FdPread,
    FdWrite,
    FdPwrite,
    FdSeek,
    FdTell,
    FdSync,
    FdDatasync,
    FdReaddir,
    PathCreateDirectory,
    PathFilestatGet,
    PathOpen,
    PathRemoveDirectory,
    PathRename,
    PathUnlinkFile,
    /// A call that links and answers that there is no such call.
    Nosys,
}

/// The number that a host's call answers, as `errno` of WASI snapshot preview 1 has it; 0 is success.
#[derive(Clone, Copy, Debug, PartialEq, Eq)]
pub struct Errno(pub u16);

impl Errno {
    pub const SUCCESS: Errno = Errno(0);

    pub const BADF: Errno = Errno(8);

    pub const FAULT: Errno = Errno(21);

    pub const INVAL: Errno = Errno(28);

    pub const IO: Errno = Errno(29);
}

/// What a host makes of a call: its result, or the end of the run with a status.
#[derive(Clone, Copy, PartialEq, Eq)]
pub enum Answer {
    /// The result of the import, as i32 or i64; it is dropped where the import has none.
    Value(Errno),
    Exit(u32),
}
