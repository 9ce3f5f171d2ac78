//! Where the entries of a module's own functions begin, and the instructions of those that were asked for, looked up once.

ghost use Rattle.std.specs.Prelude.{◌≡◌, ◌-◌, ◌^◌, ◌<◌, ◌++◌, List, ℕ, IfOk, OnOk, Some, length};
ghost use Rattle.sandbox_inspect.specs.Places.{IsInstructionAt, own_entry};
ghost use Rattle.sandbox_inspect.specs.internal.Bodies.{ArePlaces};
ghost use Rattle.sandbox_inspect.specs.internal.Starts.{AreStarts, starts_from};

use crate::bodies::{MOST_PLACES, instruction_places, no_places, put};
use crate::places::own_entry;
use crate::sections::{Wanted, module_section, number, sized};
use std::alloc::{AllocError, Global};
use std::marker::Model;
use wasm_module::Body;
use wasm_valid::instruction_place;

/// A table has so many functions at most: 8 bytes for each.
const MOST_STARTS: u32 = 65_536;

/// Adds where so many entries begin, as far as they can be read, in bytes from the first of the module. The last byte of the
/// entries stands so many bytes from it, too.
fn add_starts(
    starts: &mut Vec<usize>,
    end: usize,
    count: u32,
    entries: &[u8],
) -> Result<(), AllocError>
    ensures { OnOk result (starts.new.items ≡ starts.old.items ++ starts_from end count
        entries.now) }
{
    let mut rest = entries;
    for _ in 0..count {
        let Some((content, after)) = sized(rest) else {
            return Ok(());
        };
        starts.push(
            end.saturating_sub(after.len())
                .saturating_sub(content.len()),
        )?;
        rest = after;
    }
    Ok(())
}

/// Where the contents of the first entries of the code section begin, in bytes from the first of the module.
fn entry_starts(alloc: Global, bytes: &[u8]) -> Result<Vec<usize>, AllocError>
    ensures { IfOk result (λ starts. AreStarts bytes.now starts.items) }
{
    let mut starts = Vec::new(alloc);
    let Some(section) = module_section(Wanted::Code, bytes) else {
        return Ok(starts);
    };
    let Some((count, entries)) = number(section.content) else {
        return Ok(starts);
    };
    let end = bytes.len().saturating_sub(section.rest.len());
    add_starts(&mut starts, end, count.min(MOST_STARTS), entries)?;
    Ok(starts)
}

/// A module's bytes, in which the offsets of instructions are asked for again and again.
///
/// The first time, a table of the first functions is made, and for each function that is asked for one of its instructions: 32 bytes
/// for each of at most 65,536 functions, and 8 for each of at most 524,288 instructions. What there is no room or memory for is
/// looked up in the bytes each time.
#[derive(Drop)]
pub struct ModuleBytes<'a> {
    bytes: &'a [u8],
    /// Empty until it is looked up, and so are the tables.
    starts: Vec<usize>,
    bodies: Vec<Vec<usize>>,
    /// How many instructions may still get into tables.
    room: usize,
}

impl<'a> Model for ModuleBytes<'a> {
    ghost use Rattle.std.specs.Prelude.{ℕ, List, IfSome, slice_get};
    ghost use Rattle.sandbox_inspect.specs.internal.Starts.{AreStarts};
    ghost use Rattle.sandbox_inspect.specs.internal.Bodies.{ArePlaces};

    ghost Value = { List ℕ };

    ghost view = { λ m. m.bytes.now };

    ghost invariant = { λ m. AreStarts m.bytes.now m.starts.items
        × ((own : ℕ) → IfSome (slice_get m.bodies.items own) (λ places. ArePlaces m.bytes.now own places.items)) };
}

impl<'a> ModuleBytes<'a> {
    /// These bytes, in which nothing was looked up.
    pub fn new(alloc: Global, bytes: &'a [u8]) -> ModuleBytes<'a>
        ensures { result ≡ bytes.now }
    {
        ModuleBytes {
            bytes,
            starts: Vec::new(alloc),
            bodies: Vec::new(alloc),
            room: MOST_PLACES,
        }
    }

    /// The bytes.
    pub fn as_slice(&self) -> &'a [u8]
        ensures { result.now ≡ self.now }
    {
        self.bytes
    }

    /// Makes the table of functions, if it isn't there and there is memory for it.
    fn look_up(&mut self, alloc: Global)
        ensures { self.new ≡ self.old }
    {
        if self.starts.is_empty()
            && let Ok(starts) = entry_starts(alloc, self.bytes)
        {
            self.starts = starts;
        }
    }

    /// Makes a table of instructions for each function of that table, in which there is nothing yet.
    fn make_room(&mut self, alloc: Global)
        ensures { self.new ≡ self.old }
    {
        if self.bodies.is_empty()
            && let Ok(tables) = no_places(alloc, self.starts.len())
        {
            self.bodies = tables;
        }
    }

    /// Whether so many instructions of this function may get into its table, and none are there.
    fn has_room(&self, own: usize, count: usize) -> bool {
        match self.bodies.as_slice().get(own) {
            Some(places) => places.is_empty() && count <= self.room,
            None => false,
        }
    }

    /// Keeps where the instructions of this function begin.
    fn keep(&mut self, own: usize, places: Vec<usize>)
        requires { ArePlaces self.now own places.items }
        ensures { self.new ≡ self.old }
    {
        self.room = self.room.saturating_sub(places.len());
        put(&mut self.bodies, own, places);
    }

    /// Looks up where so many instructions of this function begin, whose entry's content begins here, if there is room and memory
    /// to keep them.
    fn table(&mut self, alloc: Global, own: usize, start: usize, count: usize)
        requires { (content behind : List ℕ) → own_entry self.now own ≡ Some (content, behind)
            → Some start ≡ Some (length self.now - length behind - length content) }
        ensures { self.new ≡ self.old }
    {
        self.make_room(alloc);
        if !self.has_room(own, count) {
            return;
        }
        if let Ok(places) = instruction_places(alloc, self.bytes, start, count) {
            self.keep(own, places);
        }
    }

    /// Where the instruction of this index begins, by the table of its function, whose body this is.
    fn placed(&self, own: usize, body: &Body<'_>, index: usize) -> Option<usize>
        ensures found { (place : ℕ) (behind : List ℕ) → result ≡ Some place
            → own_entry self.now own ≡ Some (body.now.bytes, behind)
            → IsInstructionAt self.now own body.now index place }
    {
        if index >= body.code.as_slice().len() {
            return None;
        }
        let places = self.bodies.as_slice().get(own)?;
        let place = places.as_slice().get(index)?;
        Some(*place)
    }

    /// Where the content of this function's entry begins, by the table.
    fn tabled(&self, own: usize) -> Option<usize>
        ensures found { (start : ℕ) (content behind : List ℕ) → result ≡ Some start
            → own_entry self.now own ≡ Some (content, behind)
            → start ≡ length self.now - length behind - length content }
        ensures fits { length self.now < 2 ^ 64 }
    {
        let start = self.starts.as_slice().get(own)?;
        Some(*start)
    }

    /// Where the content of this function's entry begins.
    fn start(&self, own: usize) -> Option<usize>
        ensures found { (content behind : List ℕ) → own_entry self.now own ≡ Some (content, behind)
            → result ≡ Some (length self.now - length behind - length content) }
        ensures fits { length self.now < 2 ^ 64 }
    {
        if let Some(start) = self.tabled(own) {
            return Some(start);
        }
        let (content, behind) = own_entry(self.bytes, own)?;
        Some(self.bytes.len() - behind - content.len())
    }

    /// Where the instruction of this index of a function's body begins, in bytes from the first of the module. The function is the
    /// module's own of this index, counted from 0, and its entry in the code section is this body.
    pub fn instruction_offset(
        &mut self,
        alloc: Global,
        own: usize,
        body: &Body<'_>,
        index: usize,
    ) -> Option<usize>
        ensures found { (behind : List ℕ) → own_entry self.old own ≡ Some (body.now.bytes, behind)
            → (offset : ℕ) × (result ≡ Some offset)
            × IsInstructionAt self.old own body.now index offset }
        ensures kept { self.new ≡ self.old }
    {
        if let Some(place) = self.placed(own, body, index) {
            return Some(place);
        }
        self.look_up(alloc);
        let start = self.start(own)?;
        self.table(alloc, own, start, body.code.as_slice().len());
        Some(start.saturating_add(instruction_place(body, index)))
    }
}
