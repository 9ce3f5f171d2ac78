//! What a command line asks for.

/// What a guest may use.
#[derive(Clone, Copy)]
pub struct GuestLimits {
    /// Units of fuel.
    pub fuel: u64,
    /// Pages of 65,536 bytes that memory may have at most.
    pub pages: u32,
    /// Values of 8 bytes that its stack may have at most; 4,096 are always allowed.
    pub values: u32,
    /// Bytes that it may give to standard output, and as many to standard error; where there is none, they have no bound.
    pub output: Option<u64>,
}

/// Which of the streams of a guest are terminals.
#[derive(Clone, Copy)]
pub struct GivenTerminals {
    pub input: bool,
    pub output: bool,
    pub error: bool,
}

/// No stream is known to be one.
pub(crate) const NO_TERMINALS: GivenTerminals = GivenTerminals {
    input: false,
    output: false,
    error: false,
};

/// `sandbox run`: a module, what it may use, and what it is given.
#[derive(Drop)]
pub struct Run<'a> {
    pub limits: GuestLimits,
    /// The file of its volume; where there is none, and no image or tar stream to begin with, it gets an empty volume, which is
    /// discarded.
    pub volume: Option<&'a str>,
    /// The file whose volume it begins with; the file is only read.
    pub image: Option<&'a str>,
    /// The file of a tar stream, of which the volume that it begins with is made; the file is only read.
    pub image_from: Option<&'a str>,
    /// The file that gets the volume as a run on an image leaves it.
    pub volume_out: Option<&'a str>,
    /// The file that gets the tree of a volume in memory as a tar stream, as the run leaves it.
    pub out_to: Option<&'a str>,
    /// Its directories, each as `GUEST=PATH`: the name that the guest knows it by, and its path in
    /// the volume. Where there is none, it gets the root as `/`.
    pub dirs: Vec<&'a str>,
    /// Its environment, each text as `NAME=VALUE`.
    pub env: Vec<&'a str>,
    /// The time of day that it is told, in nanoseconds since 1970-01-01 00:00:00 UTC.
    pub moment: u64,
    /// The file of its random bytes; where there is none, it gets none.
    pub random: Option<&'a str>,
    /// The seed of its random bytes, where they come from a generator.
    pub seed: Option<u64>,
    /// The file that it reads as its standard input; where there is none, it gets the program's.
    pub stdin: Option<&'a str>,
    /// The file that gets its standard output; where there is none, the program's own gets it.
    pub stdout: Option<&'a str>,
    /// The file that gets its standard error; where there is none, the program's own gets it.
    pub stderr: Option<&'a str>,
    /// A read of its standard input gives what is there, and it is told which of its streams are terminals.
    pub interactive: bool,
    /// The module may have floats.
    pub floats: bool,
    /// Which of its streams are terminals. No word says it: who has the streams notes it.
    pub terminals: GivenTerminals,
    /// The guest's argument 0; where there is none, it gets the word that names the module.
    pub name: Option<&'a str>,
    /// The file of its report, which says how it ended and what it used.
    pub report: Option<&'a str>,
    /// How many frames are told at most of a run that stopped before its end.
    pub frames: u32,
    /// The file of its profile, which says which functions used its fuel.
    pub profile: Option<&'a str>,
    /// The units of fuel from one look at its frames to the next; where there is none, the program has a number.
    pub profile_every: Option<u64>,
    /// The file of a list of tests that the module is run on.
    pub tests: Option<&'a str>,
    /// The exported function that is called in the place of `_start`, with the words as numbers.
    pub invoke: Option<&'a str>,
    /// The module's file.
    pub module: &'a str,
    /// The guest's further arguments.
    pub words: Vec<&'a str>,
}

/// How a listing writes an entry.
#[derive(Clone, Copy)]
pub struct ListForm {
    /// Each byte of a name that isn't plain is a sequence of a backslash and plain ones.
    pub escape: bool,
    /// A line ends with a NUL in place of a line end.
    pub null: bool,
}

/// What is changed in the tree of a volume.
#[derive(Clone, Copy)]
pub enum Change<'a> {
    /// Make the directory of this path.
    MakeDirectory { path: &'a str },
    /// Give the entry of one path the place and the name that the other one has.
    Move { from: &'a str, to: &'a str },
    /// Take away the file, or the empty directory, of this path.
    Remove { path: &'a str },
    /// Take away the file, or the directory with all that is in it, of this path.
    RemoveAll { path: &'a str },
}

/// What is done with the volume in a file.
#[derive(Clone, Copy)]
pub enum Task<'a> {
    /// Print the entries of the directory of this path.
    List { path: &'a str },
    /// Print them in this form.
    ListAs { path: &'a str, form: ListForm },
    /// Print the file of this path.
    Get { path: &'a str },
    /// Put the input into the file of this path.
    Put { path: &'a str },
    /// Put the input into a new file, which then takes the place of that of this path.
    PutWhole { path: &'a str },
    /// Print how much of the volume is used.
    Check,
    /// Make it a volume of version 2, or of version 4 where it is to be huge.
    Upgrade { huge: bool },
    /// Print what the entry of this path is.
    Stat { path: &'a str },
    /// Change its tree, and make that last.
    Change(Change<'a>),
}

/// What a command line asks for.
#[derive(Drop)]
pub enum Invocation<'a> {
    /// Run a module.
    Run(Run<'a>),
    /// Make a file an empty volume with these numbers of sectors and of slots for entries, of
    /// version 2 where it is to be large, of version 4 where it is to be huge, else of version 1; where it is to be new,
    /// only if it has no volume.
    Format {
        file: &'a str,
        sectors: u32,
        slots: u32,
        large: bool,
        huge: bool,
        new: bool,
    },
    /// Do this with the volume in a file.
    Volume {
        file: &'a str,
        task: Task<'a>,
    },
    /// Put the tar archive on the input into the directory of this path, in the volume in a file.
    Import {
        file: &'a str,
        path: &'a str,
    },
    /// Print the directory of this path, in the volume in a file, as a tar archive.
    Export {
        file: &'a str,
        path: &'a str,
    },
    /// Print what a module needs and offers, or why it is refused; it may have floats, where they are asked for.
    Inspect {
        module: &'a str,
        floats: bool,
    },
}

impl<'a> Invocation<'a> {
    ghost use Rattle.sandbox_args.specs.CommandLine.{AsksFor};

    /// Notes which streams of the program are terminals, for a run: it has these but for those that are files. The tests of a list
    /// have files alone.
    pub fn note_terminals(&mut self, found: GivenTerminals)
        ensures { (name : _) (rows : _) → AsksFor name rows self.old → AsksFor name rows self.new }
    {
        if let Invocation::Run(run) = self {
            let alone = run.tests.is_none();
            run.terminals = GivenTerminals {
                input: found.input && alone && run.stdin.is_none(),
                output: found.output && alone && run.stdout.is_none(),
                error: found.error && alone && run.stderr.is_none(),
            };
        }
    }
}
