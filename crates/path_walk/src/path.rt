//! Paths as they are handed in.

ghost use Rattle.std.specs.Prelude.{◌≡◌, ◌<◌, ℕ, List, length, Ok, Err, MatchResult, not, ◌==◌, get_or};
ghost use Rattle.std.specs.List.{list_any};
ghost use Rattle.std.specs.Str.Lossy.{utf8_valid_len};
ghost use Rattle.path_walk.specs.Paths.{path_read, components_of, wants_directory, slash};
ghost use Rattle.path_walk.specs.internal.Runs.{is_long};

use crate::components::wants_a_directory;
use std::marker::Model;
use vol_tree::Errno;

/// A path that was read: its text, which is kept where it stands.
#[derive(Drop)]
pub struct Path<'a> {
    pub(crate) text: &'a [u8],
}

impl<'a> Model for Path<'a> {
    ghost Value = { List ℕ };

    ghost view = { λ p. p.text.now };

    ghost invariant = { λ p. path_read p.text.now ≡ Ok (components_of p.text.now) };
}

/// Whether the bytes are no text.
fn is_no_text(text: &[u8]) -> bool
    ensures { result ≡ not (utf8_valid_len text.now == length text.now) }
{
    match simdutf8::compat::from_utf8(text) {
        Ok(_) => false,
        Err(_) => true,
    }
}

/// Whether a NUL byte is among them.
fn has_nul(text: &[u8]) -> bool
    ensures { result ≡ list_any (λ c. c == 0) text.now }
{
    text.contains(&0)
}

/// Whether they begin with a slash.
fn is_absolute(text: &[u8]) -> bool
    requires { 0 < length text.now }
    ensures { result ≡ (get_or text.now 0 0 == slash) }
{
    text[0] == b'/'
}

/// Whether a part between slashes has more than 255 bytes.
fn has_long_part(text: &[u8]) -> bool
    ensures { result ≡ is_long 0 text.now }
{
    let mut run: u64 = 0;
    let mut found = false;
    for byte in text {
        if *byte == b'/' {
            found = found || run > 255;
            run = 0;
        } else {
            run += 1;
        }
    }
    found || run > 255
}

impl<'a> Path<'a> {
    /// Reads a path, or says what is wrong with it, in this order: an empty one (44), one that isn't
    /// UTF-8 (25), a NUL byte (28), a slash at the beginning (76), a component of more than 255 bytes
    /// (37).
    pub fn read(text: &'a [u8]) -> Result<Path<'a>, Errno>
        ensures { MatchResult result
            (λ p. (p ≡ text.now) × (path_read text.now ≡ Ok (components_of text.now)))
            (λ e. path_read text.now ≡ Err e) }
    {
        if text.is_empty() {
            return Err(Errno::NotFound);
        }
        if is_no_text(text) {
            return Err(Errno::BadText);
        }
        if has_nul(text) {
            return Err(Errno::Invalid);
        }
        if is_absolute(text) {
            return Err(Errno::NotCapable);
        }
        if has_long_part(text) {
            return Err(Errno::NameTooLong);
        }
        Ok(Path { text })
    }

    /// Whether the path wants a directory: a slash or `.` stands at its end.
    pub fn wants_dir(&self) -> bool
        ensures { result ≡ wants_directory self.now }
    {
        wants_a_directory(self.text)
    }
}
