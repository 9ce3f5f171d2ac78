//! Names as GNU `ls` writes them by `-b` in the C locale.

ghost use Rattle.std.specs.Prelude.{◌≡◌, ◌≤◌, ◌+◌, ◌*◌, ◌++◌, length};
ghost use Rattle.std.specs.List.{flat_map};
ghost use Rattle.vol_commands.specs.declared.output.TheConstants.{LINE_ROOM};
ghost use Rattle.vol_commands.specs.Listing.{escaped_byte, letter_of, line_end, name_as};

use crate::output::{Line, put};
use sandbox_args::ListForm;

/// What stands behind the backslash for this byte, where that is one letter, a space or a backslash.
fn letter(byte: u8) -> Option<u8>
    ensures { result ≡ letter_of byte }
{
    match byte {
        7 => Some(b'a'),
        8 => Some(b'b'),
        9 => Some(b't'),
        10 => Some(b'n'),
        11 => Some(b'v'),
        12 => Some(b'f'),
        13 => Some(b'r'),
        b' ' => Some(b' '),
        b'\\' => Some(b'\\'),
        _ => None,
    }
}

/// Puts a byte of a name behind a line.
fn put_byte(byte: u8, line: &mut Line)
    requires { length line.old.items + 4 ≤ LINE_ROOM }
    ensures items { line.new.items ≡ line.old.items ++ escaped_byte byte }
    ensures len { length line.new.items ≤ length line.old.items + 4 }
{
    match letter(byte) {
        Some(letter) => put(line, &[b'\\', letter]),
        None if 32 < byte && byte < 127 => put(line, &[byte]),
        None => put(
            line,
            &[
                b'\\',
                b'0' + byte / 64,
                b'0' + byte / 8 % 8,
                b'0' + byte % 8,
            ],
        ),
    }
}

/// Puts a name behind a line, its bytes escaped.
fn put_escaped(name: &[u8], line: &mut Line)
    requires { length line.old.items + 4 * length name.now ≤ LINE_ROOM }
    ensures items { line.new.items ≡ line.old.items ++ flat_map escaped_byte name.now }
    ensures len { length line.new.items ≤ length line.old.items + 4 * length name.now }
{
    for byte in name {
        put_byte(*byte, line);
    }
}

/// Puts a name behind a line, in this form.
pub(crate) fn put_name(name: &[u8], form: ListForm, line: &mut Line)
    requires { length line.old.items + 4 * length name.now ≤ LINE_ROOM }
    ensures items { line.new.items ≡ line.old.items ++ name_as form name.now }
    ensures len { length line.new.items ≤ length line.old.items + 4 * length name.now }
{
    if form.escape {
        put_escaped(name, line);
    } else {
        put(line, name);
    }
}

/// What a line ends with in this form.
pub(crate) fn line_end(form: ListForm) -> &'static [u8]
    ensures text { result.now ≡ line_end form }
    ensures len { length result.now ≡ 1 }
{
    if form.null { b"\0" } else { b"\n" }
}
