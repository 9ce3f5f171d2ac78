//! Keys by their serials, and the serials in the order of keys.

ghost use Rattle.std.specs.Prelude.{◌≡◌, ◌<◌, ◌≤◌, ◌^◌, ◌++◌, ℕ, List, [], length, slice_index_or};
ghost use Rattle.std.specs.Prelude.{vec_len, vec_capacity, IfOk, IfSome, IfNone, IsPermutation};
ghost use Rattle.vol_dirs.specs.internal.Rising.{Rises, AreApart, IsLesser, IsLeastOver, NoneIsOver, AddsItem, Drops};
ghost use Rattle.vol_dirs.specs.internal.Listing.{key_order};
ghost use Rattle.vol_dirs.specs.Serials.{keys_in, AreSerials};

use crate::serials::{first_over, is_over, least_over, merge, take_out};
use std::alloc::{AllocError, Global};
use std::mem;

/// How many serials may be late. A new one moves half of them where they come in no order, and once in
/// so many all others are moved, which is as much for each where there are half a million.
const MOST_LATE: usize = 1024;

/// Keys of `N` bytes, each in the place of its serial, where it stays; and the serials in the order of
/// their keys, those of equal keys rising. A serial that is new goes to the late ones, which are few,
/// and these go to the long list all at once. So a serial more moves few others, whatever their number.
#[derive(Drop)]
pub struct SerialOrder<const N: usize> {
    slots: u32,
    keys: Vec<[u8; N]>,
    long: Vec<u32>,
    late: Vec<u32>,
    // What the lists are merged into, which then is the long one.
    spare: Vec<u32>,
    ghost long_serials: { AreSerials (vec_len keys) long.items },
    ghost late_serials: { AreSerials (vec_len keys) late.items },
    ghost long_rises: { Rises key_order (keys_in keys.items long.items) },
    ghost late_rises: { Rises key_order (keys_in keys.items late.items) },
    ghost apart: { AreApart (long.items ++ late.items) },
    ghost narrow: { N < 2 ^ 32 },
    ghost within: { vec_len keys ≤ slots },
    ghost keys_room: { slots ≤ vec_capacity keys },
    ghost long_room: { slots ≤ vec_capacity long },
    ghost late_room: { 1024 ≤ vec_capacity late },
    ghost spare_room: { slots ≤ vec_capacity spare },
}

impl<const N: usize> SerialOrder<N> {
    ghost use Rattle.vol_dirs.specs.SerialOrder.{serials_of, keys_of, key_with, room_of, IsAbsent, IsHeld};

    /// Room for so many serials, and none of them. It is refused where there is no memory. What isn't
    /// used of it isn't touched.
    pub fn reserve(alloc: Global, slots: u32) -> Result<SerialOrder<N>, AllocError>
        requires { N < 2 ^ 32 }
        ensures none { IfOk result (λ o. keys_of o ≡ []) }
        ensures room { IfOk result (λ o. room_of o ≡ slots) }
    {
        Ok(SerialOrder {
            slots,
            keys: Vec::with_capacity(alloc, slots as usize)?,
            long: Vec::with_capacity(alloc, slots as usize)?,
            late: Vec::with_capacity(alloc, MOST_LATE)?,
            spare: Vec::with_capacity(alloc, slots as usize)?,
        })
    }

    /// The key of a serial.
    pub fn key(&self, serial: u32) -> &[u8; N]
        requires { IsHeld self.now serial }
        ensures { (result.now, serial) ≡ key_with self.now serial }
    {
        &self.keys[serial as usize - 1]
    }

    /// The serial of the least key over the bound, with its serial, if there is one.
    pub fn least_over(&self, key: &[u8; N], serial: u32) -> Option<u32>
        ensures found { IfSome result (λ s. IsLeastOver key_order (keys_of self.now)
            (key.now, serial) (key_with self.now s)) }
        ensures held { IfSome result (λ s. IsHeld self.now s) }
        ensures none { IfNone result (NoneIsOver key_order (keys_of self.now) (key.now, serial)) }
    {
        let long = least_over(&self.keys, &self.long, key, serial);
        let late = least_over(&self.keys, &self.late, key, serial);
        match (long, late) {
            (Some(one), Some(other)) => Some(self.lesser(one, other)),
            (Some(one), None) => Some(one),
            (None, found) => found,
        }
    }

    /// Which of two serials has the lesser key.
    fn lesser(&self, one: u32, other: u32) -> u32
        requires one_held { IsHeld self.now one }
        requires other_held { IsHeld self.now other }
        ensures { IsLesser key_order (key_with self.now) one other result }
    {
        if is_over(&self.keys, other, &self.keys[one as usize - 1], one) {
            one
        } else {
            other
        }
    }

    /// Puts a serial with its key in its place. No memory is taken.
    pub fn insert(&mut self, key: &[u8; N], serial: u32)
        requires first { 1 ≤ serial }
        requires last { serial ≤ room_of self.old }
        requires free { IsAbsent self.old serial }
        ensures adds { AddsItem (keys_of self.old) (keys_of self.new) (key.now, serial) }
        ensures room { room_of self.new ≡ room_of self.old }
    {
        self.make_room();
        self.reach(serial);
        let at = first_over(&self.keys, &self.late, key, serial);
        self.keys[serial as usize - 1] = *key;
        match self.late.insert(at, serial) {
            Ok(()) => {}
            Err(_) => {}
        }
    }

    /// Sees to it that one serial more may be late.
    fn make_room(&mut self)
        ensures late { vec_len self.new.late < 1024 }
        ensures moved { IsPermutation (serials_of self.old) (serials_of self.new) }
        ensures keys { self.new.keys ≡ self.old.keys }
        ensures room { room_of self.new ≡ room_of self.old }
    {
        if self.late.len() >= MOST_LATE {
            self.merge();
        }
    }

    /// Puts the late serials among the others. No memory is taken.
    fn merge(&mut self)
        ensures late { vec_len self.new.late ≡ 0 }
        ensures moved { IsPermutation (serials_of self.old) (serials_of self.new) }
        ensures keys { self.new.keys ≡ self.old.keys }
        ensures room { room_of self.new ≡ room_of self.old }
    {
        self.spare.clear();
        merge(&self.keys, &self.long, &self.late, &mut self.spare);
        mem::swap(&mut self.long, &mut self.spare);
        self.late.clear();
    }

    /// Makes a place for the key of a serial. No memory is taken.
    fn reach(&mut self, serial: u32)
        requires { serial ≤ room_of self.old }
        ensures reaches { serial ≤ vec_len self.new.keys }
        ensures long { self.new.long ≡ self.old.long }
        ensures late { self.new.late ≡ self.old.late }
        ensures keys { keys_of self.new ≡ keys_of self.old }
        ensures room { room_of self.new ≡ room_of self.old }
    {
        if self.keys.len() < serial as usize {
            lengthen(&mut self.keys, serial as usize);
        }
    }

    /// Takes a serial away that is held. No memory is taken.
    pub fn remove(&mut self, serial: u32)
        requires { IsHeld self.old serial }
        ensures drops { Drops (keys_of self.old) (keys_of self.new) (key_with self.old serial) }
        ensures room { room_of self.new ≡ room_of self.old }
    {
        if !take_out(&self.keys, &mut self.late, serial) {
            take_out(&self.keys, &mut self.long, serial);
        }
    }
}

/// Appends zeros until there are so many keys. No memory is taken.
fn lengthen<const N: usize>(keys: &mut Vec<[u8; N]>, count: usize)
    requires more { vec_len keys.old ≤ count }
    requires room { count ≤ vec_capacity keys.old }
    ensures count { vec_len keys.new ≡ count }
    ensures kept { (k : ℕ) → k < vec_len keys.old
        → slice_index_or keys.new.items k [] ≡ slice_index_or keys.old.items k [] }
    ensures capacity { vec_capacity keys.new ≡ vec_capacity keys.old }
{
    while keys.len() < count {
        keys.push_reserved([0; N]);
    }
}
