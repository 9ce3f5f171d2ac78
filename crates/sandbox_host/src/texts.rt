//! What the numbers mean, as texts in ASCII.

ghost use Rattle.std.specs.Prelude.{◌≡◌, length};
ghost use Rattle.sandbox_host.specs.Sessions.{IsShown};
ghost use Rattle.sandbox_host.specs.Texts.{answer_text, mistake_text, text_of};

use crate::showing::show;
use meanings::{Meaning, errno_text, fault_text, trap_text};

/// Makes a table of rows.
macro_rules! table {
    ($($number:literal $text:literal)*) => {
        [$(Meaning { number: $number, text: $text },)*]
    };
}

/// What a host of frames (101) and of instances (102 and on) got wrong.
static MISTAKES: [Meaning; 11] = table! {
    101 "not so many functions are at work"
    102 "nothing runs: a function has to be called first"
    103 "a function is at work"
    104 "a function of the host was called: it has to be answered first"
    105 "no function of the host was called"
    106 "the call has trapped or was refused memory: it has to be abandoned first"
    107 "nothing can be called any more: a function called proc_exit, or the opening did not return"
    108 "the module exports no function of its own by this name, or one of more than 16 parameters"
    109 "another number of values, or one that is not of its type"
    110 "past the end of memory"
    111 "no more input is taken: its end was told, or all of it was there at the opening"
};

/// The text of such a mistake, or an empty one.
fn mistake_text(number: u32) -> &'static str
    ensures { result.now ≡ mistake_text number }
{
    meanings::text_of(&MISTAKES, number)
}

/// The text of an answer: the library's alone stand past 100.
fn answer_text(number: u32) -> &'static str
    ensures { result.now ≡ answer_text number }
{
    if number > 100 {
        return mistake_text(number);
    }
    fault_text(number)
}

/// The text of a number: of an answer (0), of a trap (1), or of an errno (2).
fn text_of(kind: u32, number: u32) -> &'static str
    ensures { result.now ≡ text_of kind number }
{
    match kind {
        0 => answer_text(number),
        1 => trap_text(number),
        2 => errno_text(number),
        _ => "",
    }
}

/// Copies the text of a number as far as there is room, and says how long it is: of an answer (0), of a trap (1), or of an
/// errno (2). What has no text has an empty one.
pub fn text(kind: u32, number: u32, room: &mut [u8]) -> usize
    ensures length { result ≡ length (text_of kind number) }
    ensures shown { IsShown (text_of kind number) room.old room.new }
{
    let text = text_of(kind, number);
    show(text.as_bytes(), room);
    text.len()
}
