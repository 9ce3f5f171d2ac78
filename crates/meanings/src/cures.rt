//! What a user does about a fault or an errno of a command, each text once.

use crate::tables::{Meaning, text_of};

/// Makes a table of rows.
macro_rules! cures {
    ($($number:literal $text:literal)*) => {
        [$(Meaning { number: $number, text: $text },)*]
    };
}

/// Of the faults that a command prints, what helps: plain words in ASCII without a full stop. Of 15, 41 and memory it depends on what
/// was refused, so who knows that says it.
pub static FAULT_CURES: [Meaning; 25] = cures! {
    1 "it is cut off, so copy or build it again"
    2 "it is no WebAssembly binary; wat2wasm makes one of a text (.wat)"
    3 "it may be a component, so build a core module"
    4 "the file is damaged, or its tool is at fault"
    5 "the file is damaged, or its tool is at fault"
    6 "the file is damaged, or its tool is at fault"
    7 "mostly a later feature, so build for -mcpu=mvp, or try tools/soften"
    8 "the file is damaged, or its tool is at fault"
    9 "the file is damaged, or its tool is at fault"
    10 "--floats takes it, or tools/soften makes it integers"
    11 "docs/USING.md has them"
    12 "its tool is at fault, and wasm-validate says why"
    13 "link functions of wasi_snapshot_preview1 alone"
    14 "build a command and no library"
    16 "make it first, by sandbox mkdir"
    20 "the module is at fault"
    21 "the module is at fault"
    22 "--pages gives more"
    30 "sandbox format makes one, and destroys what the file holds"
    31 "use a newer program"
    32 "go back to a copy; sandbox check says what is broken"
    33 "look at the disk and its free space"
    34 "something cut the file meanwhile"
    35 "nothing is to be done"
    36 "137 to 65536 sectors, 1 to 8192 slots and fewer than SECTORS - 122"
};

/// Of the errnos that a command on a path ends with, what helps.
pub static ERRNO_CURES: [Meaning; 11] = cures! {
    20 "take another name, or remove it first"
    22 "95232 bytes at most, 8483840 after sandbox upgrade, 1082225664 after upgrade --huge"
    25 "names in a volume are text"
    28 "a PATH begins with /, the root stays, and no directory goes into itself"
    31 "name a file"
    37 "255 bytes at most"
    44 "sandbox ls shows what is there"
    51 "sandbox check says which; put the files into a larger volume"
    54 "a name that has to be one is a file"
    55 "remove what is in it first, or rm -r"
    76 "a path has no more .. than names before them"
};

/// What helps against a fault, or an empty text.
pub fn fault_cure(number: u32) -> &'static str {
    text_of(&FAULT_CURES, number)
}

/// What helps against an errno that a command ends with, or an empty text.
pub fn errno_cure(number: u32) -> &'static str {
    text_of(&ERRNO_CURES, number)
}
