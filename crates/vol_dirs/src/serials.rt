//! Serials in the order of their keys.

ghost use Rattle.std.specs.Prelude.{◌≡◌, ◌<◌, ◌≤◌, ◌∷◌, ◌++◌, ℕ, List, [], length, slice_index_or, true, false, IsTrue, IfSome, IfNone};
ghost use Rattle.std.specs.Prelude.{vec_len, vec_capacity, IsPermutation};
ghost use Rattle.std.specs.Ordering.{is_lt};
ghost use Rattle.vol_dirs.specs.internal.Rising.{Rises, IsFirstOver, IsLeastOver, NoneIsOver, AreApart};
ghost use Rattle.vol_dirs.specs.internal.Listing.{key_order};
ghost use Rattle.vol_dirs.specs.Serials.{key_at, keys_in, AreSerials, IsAbsentIn, IsHeldIn};

use std::cmp::Ordering;

/// Whether the key of a serial is over the bound, a key with a serial.
pub fn is_over<const N: usize>(keys: &[[u8; N]], other: u32, key: &[u8; N], serial: u32) -> bool
    requires first { 1 ≤ other }
    requires last { other ≤ length keys.now }
    ensures { result ≡ is_lt (key_order (key.now, serial) (key_at keys.now other)) }
{
    match key.cmp(&keys[other as usize - 1]) {
        Ordering::Less => true,
        Ordering::Equal => serial < other,
        Ordering::Greater => false,
    }
}

/// The place of the first serial whose key is over the bound, or the number of serials.
pub fn first_over<const N: usize>(
    keys: &[[u8; N]],
    serials: &[u32],
    key: &[u8; N],
    serial: u32,
) -> usize
    requires serials { AreSerials (length keys.now) serials.now }
    requires rises { Rises key_order (keys_in keys.now serials.now) }
    ensures first { IsFirstOver key_order (keys_in keys.now serials.now) (key.now, serial) result }
    ensures within { result ≤ length serials.now }
{
    let mut low = 0;
    let mut high = serials.len();
    while low < high {
        let middle = low + (high - low) / 2;
        if is_over(keys, serials[middle], key, serial) {
            high = middle;
        } else {
            low = middle + 1;
        }
    }
    low
}

/// The serial with the least key over the bound, if there is one.
pub fn least_over<const N: usize>(
    keys: &[[u8; N]],
    serials: &[u32],
    key: &[u8; N],
    serial: u32,
) -> Option<u32>
    requires serials { AreSerials (length keys.now) serials.now }
    requires rises { Rises key_order (keys_in keys.now serials.now) }
    ensures found { IfSome result (λ s. IsLeastOver key_order (keys_in keys.now serials.now)
        (key.now, serial) (key_at keys.now s)) }
    ensures held { IfSome result (λ s. IsHeldIn s serials.now) }
    ensures none { IfNone result (NoneIsOver key_order (keys_in keys.now serials.now)
        (key.now, serial)) }
{
    let at = first_over(keys, serials, key, serial);
    if at < serials.len() {
        Some(serials[at])
    } else {
        None
    }
}

/// Takes a serial away, if it is there, and says whether it was.
pub fn take_out<const N: usize>(keys: &[[u8; N]], serials: &mut Vec<u32>, serial: u32) -> bool
    requires first { 1 ≤ serial }
    requires last { serial ≤ length keys.now }
    requires serials { AreSerials (length keys.now) serials.old.items }
    requires rises { Rises key_order (keys_in keys.now serials.old.items) }
    ensures taken { IsTrue result → IsPermutation serials.old.items (serial ∷ serials.new.items) }
    ensures absent { result ≡ false → IsAbsentIn serial serials.old.items }
    ensures same { result ≡ false → serials.new ≡ serials.old }
    ensures serials { AreSerials (length keys.now) serials.new.items }
    ensures rises { Rises key_order (keys_in keys.now serials.new.items) }
    ensures capacity { vec_capacity serials.new ≡ vec_capacity serials.old }
{
    let over = first_over(keys, serials, &keys[serial as usize - 1], serial);
    if over == 0 || serials[over - 1] != serial {
        return false;
    }
    let _ = serials.remove(over - 1);
    true
}

/// Appends both lists to an empty one in one order. No memory is taken.
pub fn merge<const N: usize>(keys: &[[u8; N]], long: &[u32], late: &[u32], merged: &mut Vec<u32>)
    requires long { AreSerials (length keys.now) long.now }
    requires late { AreSerials (length keys.now) late.now }
    requires long_rises { Rises key_order (keys_in keys.now long.now) }
    requires late_rises { Rises key_order (keys_in keys.now late.now) }
    requires apart { AreApart (long.now ++ late.now) }
    requires empty { merged.old.items ≡ [] }
    requires room { length (long.now ++ late.now) ≤ vec_capacity merged.old }
    ensures moved { IsPermutation (long.now ++ late.now) merged.new.items }
    ensures rises { Rises key_order (keys_in keys.now merged.new.items) }
    ensures capacity { vec_capacity merged.old ≤ vec_capacity merged.new }
{
    let mut from = 0;
    for i in 0..late.len() {
        let serial = late[i];
        let at = first_over(keys, long, &keys[serial as usize - 1], serial);
        append(merged, &long[from..at]);
        merged.push_reserved(serial);
        from = at;
    }
    append(merged, &long[from..]);
}

/// Appends a part. No memory is taken.
fn append(serials: &mut Vec<u32>, part: &[u32])
    requires room { length (serials.old.items ++ part.now) ≤ vec_capacity serials.old }
    ensures items { serials.new.items ≡ serials.old.items ++ part.now }
    ensures capacity { vec_capacity serials.old ≤ vec_capacity serials.new }
{
    match serials.extend_from_slice(part) {
        Ok(()) => {}
        Err(_) => {}
    }
}
