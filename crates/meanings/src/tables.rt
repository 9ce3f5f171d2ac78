//! What the numbers mean, each text once.

ghost use Rattle.std.specs.Prelude.{◌≡◌, ◌==◌, find};
ghost use Rattle.std.specs.Option.{option_copied};
ghost use Rattle.meanings.specs.Tables.{end_label, errno_text, fault_text, text_in, trap_text};

/// A number, and what it means: plain words in ASCII without a full stop, which may stand alone in a line.
#[derive(Clone, Copy)]
pub struct Meaning {
    pub number: u32,
    pub text: &'static str,
}

// The rows of each table are handed to a macro of the caller's, before what is handed on, so that each text stands once, as a literal.

/// The faults: those at a byte of the module, of one digit and of two; the others that a command prints, of which 41 comes of the
/// program alone; and what the library answers else, 0 for success, 40 where memory was refused, 100 for a mistake of its caller.
#[macro_export]
macro_rules! faults {
    ($take:ident $($more:tt)*) => {
        $take! {
            {
                1 "the module ends too early"
                2 "the module's first four bytes are not 00 61 73 6D"
                3 "the module's next four bytes are not 01 00 00 00"
                4 "a number in the module is too long, or its unused bits are wrong"
                5 "a section stands after one of its own or a greater id"
                6 "a part of the module with a size of its own does not fill it"
                7 "a byte in the module has no meaning where it stands"
                8 "a name in the module is not UTF-8"
                9 "two counts in the module that have to agree differ"
            }
            {
                10 "a type or an instruction of floating point"
                11 "the module has more than the limits allow"
                12 "the module is not valid"
            }
            {
                13 "an import is no function, or there is no such call of that type"
                14 "no function _start without parameters and results is exported"
                15 "a setting that can't be: options, texts, names, directories or pages"
                16 "the path of a preopened directory is no directory of the volume"
                20 "a data segment passes the end of memory"
                21 "an element segment passes the end of the table"
                22 "the module's memory begins with more pages than it may have"
                30 "no volume"
                31 "the volume has a version that is not known"
                32 "the volume is damaged"
                33 "the volume's device failed"
                34 "too few sectors"
                35 "the volume has this version already, or a newer one"
                36 "a number of sectors or slots is out of its range"
                41 "a file or a standard stream can't be opened, locked, read or written"
            }
            {
                0 "success"
                40 "out of memory"
                100 "no session or module, or one in another state"
            }
            $($more)*
        }
    };
}

/// The traps, in the order of the standard.
#[macro_export]
macro_rules! traps {
    ($take:ident $($more:tt)*) => {
        $take! {
            {
                0 "unreachable"
                1 "integer divide by zero"
                2 "integer overflow"
                3 "out of bounds memory access"
                4 "undefined element"
                5 "uninitialized element"
                6 "indirect call type mismatch"
                7 "call stack exhausted"
                8 "invalid conversion to integer"
            }
            $($more)*
        }
    };
}

/// The errnos of WASI that a call answers, those of one digit first.
#[macro_export]
macro_rules! errnos {
    ($take:ident $($more:tt)*) => {
        $take! {
            {
                0 "success"
                6 "fewer random bytes are left than were asked for"
                8 "no such descriptor"
            }
            {
                10 "an open descriptor has the entry"
                20 "there is an entry of that name"
                21 "an address outside the guest's memory"
                22 "the file would be too large"
                25 "a path is not UTF-8"
                28 "an argument has no meaning here"
                29 "the volume or a stream failed, now or before"
                31 "it is a directory"
                33 "256 descriptors are open"
                37 "a name is too long"
                44 "there is no entry of that name"
                51 "no sector or no slot for an entry is left"
                52 "there is no such call"
                54 "it is no directory"
                55 "the directory is not empty"
                58 "a flag that is not supported"
                61 "a position is past the last one"
                70 "a stream has no positions"
                76 "a right is missing, or a path leads out of its directory"
            }
            $($more)*
        }
    };
}

/// What a report calls the ends of a run that began; the numbers are those of the header.
#[macro_export]
macro_rules! ends {
    ($take:ident $($more:tt)*) => {
        $take! {
            {
                0 "exit"
                1 "trap"
                2 "out of fuel"
                3 "out of memory"
            }
            $($more)*
        }
    };
}

/// Makes a table of rows.
macro_rules! table {
    ($({ $($number:literal $text:literal)* })*) => {
        [$($(Meaning { number: $number, text: $text },)*)*]
    };
}

/// All faults.
pub static FAULTS: [Meaning; 30] = faults!(table);

/// All traps.
pub static TRAPS: [Meaning; 9] = traps!(table);

/// All errnos that a call answers.
pub static ERRNOS: [Meaning; 22] = errnos!(table);

/// All ends of a run that began.
pub static ENDS: [Meaning; 4] = ends!(table);

/// The row of a number in a table.
fn row_of(table: &'static [Meaning], number: u32) -> Option<&'static Meaning>
    ensures { option_copied result ≡ find (λ row. row.number == number) table.now }
{
    table.iter().find(|row| row.number == number)
}

/// The text of a number in a table, or an empty one.
pub fn text_of(table: &'static [Meaning], number: u32) -> &'static str
    ensures { result.now ≡ text_in table.now number }
{
    match row_of(table, number) {
        Some(row) => row.text,
        None => "",
    }
}

/// The text of a fault, or an empty one.
pub fn fault_text(number: u32) -> &'static str
    ensures { result.now ≡ fault_text number }
{
    text_of(&FAULTS, number)
}

/// The text of a trap, or an empty one.
pub fn trap_text(number: u32) -> &'static str
    ensures { result.now ≡ trap_text number }
{
    text_of(&TRAPS, number)
}

/// The text of an errno, or an empty one.
pub fn errno_text(number: u32) -> &'static str
    ensures { result.now ≡ errno_text number }
{
    text_of(&ERRNOS, number)
}

/// What a report calls an end of a run that began, or an empty text.
pub fn end_label(number: u32) -> &'static str
    ensures { result.now ≡ end_label number }
{
    text_of(&ENDS, number)
}
