//! Where the fuel of a run went, and how its functions are called there.

ghost use Rattle.std.specs.Prelude.{◌≡◌, ◌++◌, IfOk, OnOk};
ghost use Rattle.std.specs.List.{flat_map};
ghost use Rattle.observed_run.specs.Stacks.{Stacks};
ghost use Rattle.sandbox_telling.specs.Profiling.{no_stacks, slice_of, stack_byte, stack_name};

use indexmap::IndexMap;
use observed_run::{FuelProfile, Names};
use sandbox_args::Run;
use sandbox_inspect::add_called;
use std::alloc::{AllocError, Global};
use std::io;
use std::marker::Model;

/// Where the fuel of a run went.
#[derive(Drop)]
pub struct FuelUse {
    /// The stacks of functions, each by its index among the module's own, with the units that were taken there.
    pub stacks: FuelProfile,
    /// How many functions the module imports; they are counted first.
    pub imported: usize,
}

/// The units of a slice where the words of a run say nothing of it. It is a prime, since a loop whose length divides it would be met
/// at the same instruction each time.
const SLICE: u64 = 9_973;

/// How many functions the stacks of a profile have at most, all together. So its memory and its text are bounded.
const ROOM: u64 = 4_194_304;

/// How many bytes of what a function is called stand in a stack at most.
const NAME: usize = 255;

/// The units of a slice of a run.
pub fn slice_of(run: &Run<'_>) -> u64
    ensures { result ≡ slice_of run.now }
{
    run.profile_every.unwrap_or(SLICE)
}

/// No stack yet.
pub fn no_stacks(alloc: Global) -> Result<FuelProfile, AllocError>
    ensures { IfOk result (λ stacks. stacks ≡ no_stacks) }
{
    FuelProfile::new(alloc, ROOM)
}

/// Adds a byte of a name, so that no name ends early, and none begins a note.
fn add_byte(line: &mut Vec<u8>, byte: u8) -> io::Result<()>
    ensures { OnOk result (line.new.items ≡ line.old.items ++ stack_byte byte) }
{
    let itself = [byte];
    let shown: &[u8] = match byte {
        b';' => b"\\3b",
        b'#' => b"\\23",
        _ => &itself,
    };
    line.extend_from_slice(shown)?;
    Ok(())
}

/// Adds a name.
fn add_bytes(line: &mut Vec<u8>, name: &[u8]) -> io::Result<()>
    ensures { OnOk result (line.new.items ≡ line.old.items ++ flat_map stack_byte name.now) }
{
    for byte in name {
        add_byte(line, *byte)?;
    }
    Ok(())
}

/// How the functions of a module of these bytes are called in stacks.
#[derive(Drop)]
pub struct StackNames<'a> {
    alloc: Global,
    bytes: &'a [u8],
    imported: usize,
    /// The names that were looked up, each by its function: a name is found by a walk through all names of the module.
    known: IndexMap<usize, Vec<u8>>,
}

impl<'a> Model for StackNames<'a> {
    ghost use Rattle.std.specs.Prelude.{◌≡◌, ℕ, IfSome, nat_eq};
    ghost use Rattle.indexmap.specs.IndexMap.{get};
    ghost use Rattle.sandbox_telling.specs.Profiling.{Naming, stack_name};

    ghost Value = { Naming };

    ghost view = { λ n. record { bytes = n.bytes.now; imported = n.imported } };

    ghost invariant = { λ n. (own : ℕ) → IfSome (get nat_eq n.known own)
        (λ name. name.items ≡ stack_name n.bytes.now n.imported own) };
}

impl<'a> StackNames<'a> {
    /// None is looked up yet.
    fn new(alloc: Global, bytes: &'a [u8], imported: usize) -> StackNames<'a>
        ensures { result ≡ record { bytes = bytes.now; imported = imported } }
    {
        StackNames {
            alloc,
            bytes,
            imported,
            known: IndexMap::new(alloc),
        }
    }

    /// Those of the functions of these stacks, each looked up once, as far as there is memory to keep them.
    pub fn of(alloc: Global, bytes: &'a [u8], fuel_use: &FuelUse) -> StackNames<'a>
        ensures { result ≡ record { bytes = bytes.now; imported = fuel_use.now.imported } }
    {
        let mut names = StackNames::new(alloc, bytes, fuel_use.imported);
        for node in 0..usize::MAX {
            match fuel_use.stacks.function(node) {
                Some(function) => names.keep(function),
                None => return names,
            }
        }
        names
    }

    /// Adds what a function is called in stacks, looked up.
    fn look_up(&self, line: &mut Vec<u8>, own: usize) -> io::Result<()>
        ensures { OnOk result (line.new.items ≡ line.old.items ++ stack_name self.now.bytes
            self.now.imported own) }
    {
        let index = (self.imported as u64).saturating_add(own as u64);
        let mut called = Vec::new(self.alloc);
        add_called(&mut called, self.bytes, index)?;
        called.truncate(NAME);
        add_bytes(line, called.as_slice())
    }

    /// Looks the name of a function up where it isn't known, and keeps it where there is memory for it.
    fn keep(&mut self, own: usize)
        ensures { self.new ≡ self.old }
    {
        if self.known.contains_key(&own) {
            return;
        }
        let mut name = Vec::new(self.alloc);
        if self.look_up(&mut name, own).is_ok() {
            let _ = self.known.insert(own, name);
        }
    }
}

impl Names for StackNames<'_> {
    ghost text = { λ names function. stack_name names.bytes names.imported function };

    fn add(&self, line: &mut Vec<u8>, function: usize) -> io::Result<()> {
        let Some(name) = self.known.get(&function) else {
            return self.look_up(line, function);
        };
        line.extend_from_slice(name.as_slice())?;
        Ok(())
    }
}
