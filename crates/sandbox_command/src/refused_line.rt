//! A command line that is refused.

ghost use Rattle.clap.specs.declared.error.kind.ErrorKind.{ErrorKind as LineKind};
ghost use Rattle.std.specs.Prelude.{◌≡◌, ◌≤◌};
ghost use Rattle.sandbox_runs.specs.Status.{command_line_status};

use clap::Error;
use sandbox_args::invocation;
use sandbox_runs::program::{out_of_memory, refuse_command_line};
use sandbox_telling::output::say;
use std::alloc::{AllocError, Global};
use stream_answers::Outlet;

/// The status of a command line that is refused.
const REFUSED: u8 = 125;

/// Whether a word has a character that ends a line, or that moves what a terminal shows.
fn has_control(word: &str) -> bool {
    word.chars().any(|c| c.is_control())
}

/// A word with a question mark in the place of each control character, as names are printed.
fn shown(alloc: Global, word: &str) -> Result<String, AllocError> {
    let mut shown = String::new(alloc);
    for c in word.chars() {
        shown.push(if c.is_control() { '?' } else { c })?;
    }
    Ok(shown)
}

/// All words of a command line so.
fn shown_words(alloc: Global, words: &[String]) -> Result<Vec<String>, AllocError> {
    let mut all = Vec::new(alloc);
    for word in words {
        let word = shown(alloc, word.as_str())?;
        all.push(word)?;
    }
    Ok(all)
}

/// Prints why a command line is refused that has these words, and gives the status.
fn refuse_shown<W: Outlet>(alloc: Global, err: &mut W, words: &[String]) -> u8
    ensures status { (kind : LineKind) × (result ≡ command_line_status kind) }
    ensures within { result ≤ 125 }
{
    match invocation(alloc, words) {
        Err(refused) => refuse_command_line(err, &refused),
        Ok(_) => {
            say(err, b"error: a word has a control character\n");
            REFUSED
        }
    }
}

/// Prints why a command line of these words is refused, or what it asks for of help, and gives the status. The parser's text has
/// words as they are, so those that have control characters are read again without them: no word begins a line.
pub(crate) fn refuse_line<W: Outlet>(
    alloc: Global,
    err: &mut W,
    words: &[String],
    refused: &Error,
) -> u8
    ensures status { (kind : LineKind) × (result ≡ command_line_status kind) }
    ensures within { result ≤ 125 }
{
    if !words.iter().any(|word| has_control(word.as_str())) {
        return refuse_command_line(err, refused);
    }
    match shown_words(alloc, words) {
        Ok(shown) => refuse_shown(alloc, err, shown.as_slice()),
        Err(_) => out_of_memory(err),
    }
}
