//! The components of a path, one after another.

ghost use Rattle.std.specs.Prelude.{⊤, true, false, ◌+◌, ◌^◌, List, ◌≡◌, ◌≤◌, ◌<◌, length};
ghost use Rattle.std.specs.Option.{MatchOption};
ghost use Rattle.vol_tree.specs.Tree.{Name, same_name};
ghost use Rattle.path_walk.specs.Paths.{dots, is_skipped, components_of, wants_directory, stays_inside as inside};
ghost use Rattle.path_walk.specs.internal.Turns.{counting, IsPartLen};

/// The length of the part before the first slash, or of all.
pub(crate) fn part_len(text: &[u8]) -> usize
    ensures { IsPartLen text.now result }
{
    let mut n = 0;
    while n < text.len() && text[n] != b'/' {
        n += 1;
    }
    n
}

/// Whether the part doesn't count: an empty one, or `.`.
pub(crate) fn skips(part: &[u8]) -> bool
    ensures { result ≡ is_skipped part.now }
{
    part.is_empty() || part == b".".as_slice()
}

/// Whether the part goes up.
pub(crate) fn goes_up(part: &[u8]) -> bool
    ensures { result ≡ same_name part.now dots }
{
    part == b"..".as_slice()
}

/// How many names stand after one part more; none where a `..` has no name before it.
pub(crate) fn deepen(depth: u64, part: &[u8]) -> Option<u64>
    requires { depth + length part.now < 2 ^ 64 }
    ensures meaning { (names : List Name) → MatchOption result
        (inside depth (counting part.now names) ≡ false)
        (λ d. inside depth (counting part.now names) ≡ inside d names) }
    ensures room { MatchOption result ⊤ (λ d. d ≤ depth + length part.now) }
{
    if skips(part) {
        return Some(depth);
    }
    if !goes_up(part) {
        return Some(depth + 1);
    }
    depth.checked_sub(1)
}

/// Whether no first part of the components has more `..` than names.
pub(crate) fn stays_inside(text: &[u8]) -> bool
    ensures { result ≡ inside 0 (components_of text.now) }
{
    let _total = text.len();
    let mut depth: u64 = 0;
    let mut rest = text;
    let mut more = true;
    while more {
        let (part, tail) = rest.split_at(part_len(rest));
        match deepen(depth, part) {
            Some(next) => depth = next,
            None => return false,
        }
        if tail.is_empty() {
            more = false;
        } else {
            let (_slash, remainder) = tail.split_at(1);
            rest = remainder;
        }
    }
    true
}

/// Whether a slash or `.` stands at the end of a path, which wants a directory then.
pub fn wants_a_directory(text: &[u8]) -> bool
    ensures { result ≡ wants_directory text.now }
{
    let mut wants = false;
    let mut rest = text;
    let mut more = true;
    while more {
        let (part, tail) = rest.split_at(part_len(rest));
        wants = skips(part);
        if tail.is_empty() {
            more = false;
        } else {
            let (_slash, remainder) = tail.split_at(1);
            rest = remainder;
        }
    }
    wants
}
