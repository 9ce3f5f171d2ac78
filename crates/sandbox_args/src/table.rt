//! The program's commands, with their arguments, in the order of the help.

ghost use Rattle.std.specs.Prelude.{◌≡◌, IfSome, Some, find, map};
ghost use Rattle.std.specs.Option.{option_copied};
ghost use Rattle.std.specs.Str.{bytes_eq};
ghost use Rattle.sandbox_args.specs.CommandLine.{table_apps};
ghost use Rattle.sandbox_args.specs.internal.Table.{app_for, app_named, rule_for, rules_for};

/// What an argument takes.
#[derive(Clone, Copy)]
pub(crate) enum ArgumentKind {
    /// `--name TEXT`, where help calls the text by this word.
    Text(&'static str),
    /// The same, any number of times.
    Texts(&'static str),
    /// `--name N`, a number of 64 bits.
    Long,
    /// `--name N`, a number of 32 bits.
    Number,
    /// `--name` alone.
    Flag,
    /// `--name` alone, or this letter behind one `-`.
    ShortFlag(char),
    /// A word that has to be there.
    Word,
    /// A word that has to be there and is a number of 32 bits.
    NumberWord,
    /// A word, any number of times.
    Words,
}

/// An argument of a command.
pub(crate) struct Argument {
    pub name: &'static str,
    pub takes: ArgumentKind,
    /// What help says of it.
    pub help: &'static str,
}

/// Which arguments a command has.
#[derive(Clone, Copy)]
pub(crate) enum Arguments {
    /// Those of `run`.
    Run,
    /// A module.
    Module,
    /// Those of `format`.
    Format,
    /// A volume.
    Volume,
    /// Those of `upgrade`.
    Upgrade,
    /// A volume and a path in it.
    Path,
    /// Those of `ls`.
    List,
    /// Those of `put`.
    Put,
    /// Those of `mv`.
    Move,
    /// Those of `rm`.
    Remove,
}

/// A command of the program.
pub(crate) struct Subcommand {
    pub name: &'static str,
    /// What help says of it.
    pub about: &'static str,
    pub arguments: Arguments,
}

const VOLUME: Argument = Argument {
    name: "FILE",
    takes: ArgumentKind::Word,
    help: "The volume's file",
};

const PATH: Argument = Argument {
    name: "PATH",
    takes: ArgumentKind::Word,
    help: "The path, which begins with /",
};

const MODULE: Argument = Argument {
    name: "MODULE",
    takes: ArgumentKind::Word,
    help: "The module's file",
};

const HUGE: Argument = Argument {
    name: "huge",
    takes: ArgumentKind::Flag,
    help: "Make it one of version 4, whose files have up to 1082225664 bytes",
};

const FLOATS: Argument = Argument {
    name: "floats",
    takes: ArgumentKind::Flag,
    help: "Take a module with floats, f32 and f64, too",
};

/// The arguments of `inspect`.
static INSPECT: [Argument; 2] = [MODULE, FLOATS];

/// The one argument of a command on a whole volume.
static ON_VOLUME: [Argument; 1] = [VOLUME];

/// The arguments of `upgrade`.
static UPGRADE: [Argument; 2] = [VOLUME, HUGE];

/// The arguments of a command on a path.
static ON_PATH: [Argument; 2] = [VOLUME, PATH];

/// The arguments of `ls`.
static LIST: [Argument; 4] = [
    VOLUME,
    PATH,
    Argument {
        name: "escape",
        takes: ArgumentKind::Flag,
        help: "Write bytes of names that are not plain as \\n, \\033 and the like, as LC_ALL=C ls -b",
    },
    Argument {
        name: "null",
        takes: ArgumentKind::Flag,
        help: "End each line with a NUL in place of its line end",
    },
];

/// The arguments of `put`.
static PUT: [Argument; 3] = [
    VOLUME,
    PATH,
    Argument {
        name: "whole",
        takes: ArgumentKind::Flag,
        help: "Write a new file beside it first, which then takes its place",
    },
];

/// The arguments of `run`.
static RUN: [Argument; 28] = [
    Argument {
        name: "volume",
        takes: ArgumentKind::Text("FILE"),
        help: "The file of its volume [default: an empty volume, which is discarded]",
    },
    Argument {
        name: "image",
        takes: ArgumentKind::Text("FILE"),
        help: "The file whose volume it begins with; its changes stay in memory",
    },
    Argument {
        name: "image-from",
        takes: ArgumentKind::Text("TAR"),
        help: "The tar archive that its volume is made of; its changes stay in memory",
    },
    Argument {
        name: "volume-out",
        takes: ArgumentKind::Text("FILE"),
        help: "With --image or --image-from, the file to be made with the volume as it ends",
    },
    Argument {
        name: "out-to",
        takes: ArgumentKind::Text("TAR"),
        help: "Without --volume, the file to be made with its tree as it ends, as a tar archive",
    },
    Argument {
        name: "fuel",
        takes: ArgumentKind::Long,
        help: "Units of fuel, one for each plain instruction [default: 1000000000]",
    },
    Argument {
        name: "pages",
        takes: ArgumentKind::Number,
        help: "Most pages of memory, each of 65536 bytes [default: 1024]",
    },
    Argument {
        name: "values",
        takes: ArgumentKind::Number,
        help: "Most values of its stack, each of 8 bytes; 4096 at least [default: 134217728]",
    },
    Argument {
        name: "output",
        takes: ArgumentKind::Long,
        help: "Most bytes of its standard output, and of its standard error [default: no bound]",
    },
    Argument {
        name: "dir",
        takes: ArgumentKind::Texts("GUEST=PATH"),
        help: "A directory of the volume and its name for the guest, as often as wanted [default: /=/]",
    },
    Argument {
        name: "env",
        takes: ArgumentKind::Texts("NAME=VALUE"),
        help: "A text of its environment, as often as wanted",
    },
    Argument {
        name: "moment",
        takes: ArgumentKind::Long,
        help: "Its time of day, in nanoseconds since 1970-01-01 00:00:00 UTC [default: 0]",
    },
    Argument {
        name: "random",
        takes: ArgumentKind::Text("FILE"),
        help: "The file of its random bytes [default: none]",
    },
    Argument {
        name: "seed",
        takes: ArgumentKind::Long,
        help: "The seed of its random bytes, which then have no end",
    },
    Argument {
        name: "stdin",
        takes: ArgumentKind::Text("FILE"),
        help: "The file that it reads as its standard input [default: that of the program]",
    },
    Argument {
        name: "stdout",
        takes: ArgumentKind::Text("FILE"),
        help: "The file to be made with its standard output [default: that of the program]",
    },
    Argument {
        name: "stderr",
        takes: ArgumentKind::Text("FILE"),
        help: "The file to be made with its standard error [default: that of the program]",
    },
    Argument {
        name: "interactive",
        takes: ArgumentKind::Flag,
        help: "A read of its standard input gives what is there; it is told which streams are terminals",
    },
    FLOATS,
    Argument {
        name: "name",
        takes: ArgumentKind::Text("WORD"),
        help: "Its argument 0 [default: the word MODULE]",
    },
    Argument {
        name: "report",
        takes: ArgumentKind::Text("FILE"),
        help: "The file to be made with what it used and how it ended, a line key:value each",
    },
    Argument {
        name: "frames",
        takes: ArgumentKind::Number,
        help: "Most frames that are told of where it stopped before its end [default: 16]",
    },
    Argument {
        name: "profile",
        takes: ArgumentKind::Text("FILE"),
        help: "The file to be made with its profile, a line of a stack and its units of fuel each",
    },
    Argument {
        name: "profile-every",
        takes: ArgumentKind::Long,
        help: "Units of fuel between two looks at its stack; 1 is exact [default: 9973]",
    },
    Argument {
        name: "tests",
        takes: ArgumentKind::Text("LIST"),
        help: "The file of a list of tests that the module is run on",
    },
    Argument {
        name: "invoke",
        takes: ArgumentKind::Text("NAME"),
        help: "The exported function to be called, with the words as numbers; its result is printed",
    },
    Argument {
        name: "MODULE",
        takes: ArgumentKind::Word,
        help: "The module's file; the guest gets this word as argument 0, without --name",
    },
    Argument {
        name: "WORD",
        takes: ArgumentKind::Words,
        help: "Further arguments of the guest; -- comes before one that begins with -",
    },
];

/// The arguments of `format`.
static FORMAT: [Argument; 6] = [
    VOLUME,
    Argument {
        name: "SECTORS",
        takes: ArgumentKind::NumberWord,
        help: "Sectors of 512 bytes, 137 to 65536, or to 16777216 with --huge",
    },
    Argument {
        name: "SLOTS",
        takes: ArgumentKind::NumberWord,
        help: "Slots for entries, 1 to 8192, or to 1048576 with --huge; fewer than SECTORS - 122",
    },
    Argument {
        name: "large",
        takes: ArgumentKind::Flag,
        help: "Make it one of version 2, whose files have up to 8483840 bytes instead of 95232",
    },
    HUGE,
    Argument {
        name: "new",
        takes: ArgumentKind::Flag,
        help: "Refuse a file that has a volume",
    },
];

/// The arguments of `mv`.
static MOVE: [Argument; 3] = [
    VOLUME,
    Argument {
        name: "FROM",
        takes: ArgumentKind::Word,
        help: "The path of the entry, which begins with /",
    },
    Argument {
        name: "TO",
        takes: ArgumentKind::Word,
        help: "The path that it gets, which begins with /",
    },
];

/// The arguments of `rm`.
static REMOVE: [Argument; 3] = [
    VOLUME,
    PATH,
    Argument {
        name: "recursive",
        takes: ArgumentKind::ShortFlag('r'),
        help: "Also remove all that is in a directory",
    },
];

/// The rows of these arguments. (Not a part of each command's own row: what a function says of a table grows with the
/// length of all of its texts, for each of them.)
pub(crate) fn rows(arguments: Arguments) -> &'static [Argument]
    ensures { map rule_for result.now ≡ rules_for arguments }
{
    match arguments {
        Arguments::Run => &RUN,
        Arguments::Module => &INSPECT,
        Arguments::Format => &FORMAT,
        Arguments::Volume => &ON_VOLUME,
        Arguments::Upgrade => &UPGRADE,
        Arguments::Path => &ON_PATH,
        Arguments::List => &LIST,
        Arguments::Put => &PUT,
        Arguments::Move => &MOVE,
        Arguments::Remove => &REMOVE,
    }
}

/// All commands but `faults`.
pub(crate) fn commands() -> &'static [Subcommand]
    ensures { map app_for result.now ≡ table_apps }
{
    &COMMANDS
}

/// The first of these rows that has this name.
fn row_in(rows: &'static [Subcommand], name: &str) -> Option<&'static Subcommand>
    ensures { option_copied result ≡ find (λ row. bytes_eq row.name.now name.now) rows.now }
{
    rows.iter().find(|row| row.name == name)
}

/// The row of the command of this name; none where it is none of these.
pub(crate) fn row_of(name: &str) -> Option<&'static Subcommand>
    ensures { IfSome result (λ row. (row.now.name.now ≡ name.now)
        × (app_named name.now table_apps ≡ Some (app_for row.now))) }
{
    row_in(commands(), name)
}

/// All commands but `faults`.
static COMMANDS: [Subcommand; 14] = [
    Subcommand {
        name: "run",
        about: "Run the _start of a WebAssembly module, until it ends or its fuel is used up",
        arguments: Arguments::Run,
    },
    Subcommand {
        name: "inspect",
        about: "Print what a WebAssembly module needs and offers, or why it is refused",
        arguments: Arguments::Module,
    },
    Subcommand {
        name: "format",
        about: "Make a file an empty volume; it is made, or lengthened, where that is needed",
        arguments: Arguments::Format,
    },
    Subcommand {
        name: "ls",
        about: "Print the entries of a directory",
        arguments: Arguments::List,
    },
    Subcommand {
        name: "get",
        about: "Print a file",
        arguments: Arguments::Path,
    },
    Subcommand {
        name: "put",
        about: "Put standard input into a file",
        arguments: Arguments::Put,
    },
    Subcommand {
        name: "import",
        about: "Put the tar archive on standard input into a directory",
        arguments: Arguments::Path,
    },
    Subcommand {
        name: "export",
        about: "Print a directory as a tar archive",
        arguments: Arguments::Path,
    },
    Subcommand {
        name: "mkdir",
        about: "Make a directory",
        arguments: Arguments::Path,
    },
    Subcommand {
        name: "mv",
        about: "Give an entry another place or name; a file or an empty directory there goes",
        arguments: Arguments::Move,
    },
    Subcommand {
        name: "rm",
        about: "Remove a file, an empty directory or, with -r, a directory with all that is in it",
        arguments: Arguments::Remove,
    },
    Subcommand {
        name: "stat",
        about: "Print the kind, the size and the serial of an entry",
        arguments: Arguments::Path,
    },
    Subcommand {
        name: "check",
        about: "Print how much of a volume is used",
        arguments: Arguments::Volume,
    },
    Subcommand {
        name: "upgrade",
        about: "Make a volume one of version 2, or of version 4 with --huge",
        arguments: Arguments::Upgrade,
    },
];
