//! The table of descriptors.

ghost use Rattle.std.specs.Prelude.{◌≡◌, ◌≢◌, ◌≤◌, ◌<◌, ◌↔◌, ◌==◌, ℕ, true, false, IsTrue, IfOk, IfErr, OnErr, OnOk};
ghost use Rattle.std.specs.Prelude.{Some, None, length, vec_len, slice_index_or, if◌then◌else◌};
ghost use Rattle.wasi_fd.specs.declared.table.TheConstants.{PLACES};

use crate::descriptor::is_of;
use crate::{Descriptor, DescriptorFault, Fd, Stream};
use std::alloc::{AllocError, Global};
use vol_inode::Serial;

/// How many descriptors can be open at once, the three streams and the preopened directories among them. Numbers from here on
/// name none. At least three and `MOST_PREOPENS` of `wasi_calls`.
pub const PLACES: usize = 256;

/// What each descriptor of a guest stands for. Its places are reserved when it is made; no other
/// call takes memory.
#[derive(Drop)]
pub struct Descriptors<'g> {
    places: Vec<Option<Descriptor<'g>>>,
    ghost size: { vec_len places ≡ PLACES },
}

impl<'g> Descriptors<'g> {
    ghost use Rattle.wasi_fd.specs.Table.{table_of, streams, with_at, IsOf};

    /// The descriptors of a new guest: the input as 0, the output as 1, the error output as 2. It
    /// fails only where memory is refused.
    pub fn new(alloc: Global) -> Result<Descriptors<'g>, AllocError>
        ensures { IfOk result (λ d. (n : ℕ) → table_of d n ≡ streams n) }
    {
        let mut places = vec![in alloc; None; PLACES]?;
        places[0] = Some(Descriptor::Stream(Stream::Input));
        places[1] = Some(Descriptor::Stream(Stream::Output));
        places[2] = Some(Descriptor::Stream(Stream::Error));
        Ok(Descriptors { places })
    }

    /// Whether all `PLACES` numbers are open, so that no other can be opened.
    pub fn is_full(&self) -> bool
        ensures { IsTrue result ↔ ((k : ℕ) → k < PLACES → table_of self.now k ≢ None) }
    {
        self.places.iter().all(|place| place.is_some())
    }

    /// What the number stands for. It is refused as `NotOpen`.
    pub fn get(&self, fd: Fd) -> Result<Descriptor<'g>, DescriptorFault>
        ensures open { IfOk result (λ d. table_of self.now fd ≡ Some d) }
        ensures closed { IfErr result (λ fault. (fault ≡ DescriptorFault.NotOpen)
            × (table_of self.now fd ≡ None)) }
    {
        match self.places.get(fd.number() as usize) {
            Some(Some(descriptor)) => Ok(*descriptor),
            _ => Err(DescriptorFault::NotOpen),
        }
    }

    /// Opens the descriptor under the least number that stands for nothing. It is refused as `Full`
    /// where all `PLACES` numbers are open.
    pub fn open(&mut self, descriptor: Descriptor<'g>) -> Result<Fd, DescriptorFault>
        ensures least { IfOk result (λ n. (n < PLACES) × (table_of self.old n ≡ None)
            × ((k : ℕ) → k < n → table_of self.old k ≢ None)) }
        ensures opened { IfOk result (λ n. (k : ℕ)
            → table_of self.new k ≡ with_at n (Some descriptor.entry) (table_of self.old) k) }
        ensures full { IfErr result (λ fault. (fault ≡ DescriptorFault.Full)
            × ((k : ℕ) → k < PLACES → table_of self.old k ≢ None)) }
        ensures refused { OnErr result (self.new ≡ self.old) }
    {
        match self.places.iter().position(|place| place.is_none()) {
            Some(n) => {
                self.places[n] = Some(descriptor);
                Ok(Fd::new(n as u32))
            }
            None => Err(DescriptorFault::Full),
        }
    }

    /// Lets an open number stand for another descriptor. It is refused as `NotOpen`.
    pub fn replace(&mut self, fd: Fd, descriptor: Descriptor<'g>) -> Result<(), DescriptorFault>
        ensures replaced { OnOk result ((k : ℕ)
            → table_of self.new k ≡ with_at fd (Some descriptor.entry) (table_of self.old) k) }
        ensures open { OnOk result (table_of self.old fd ≢ None) }
        ensures closed { IfErr result (λ fault. (fault ≡ DescriptorFault.NotOpen)
            × (table_of self.old fd ≡ None)) }
        ensures refused { OnErr result (self.new ≡ self.old) }
    {
        self.get(fd)?;
        self.places[fd.number() as usize] = Some(descriptor);
        Ok(())
    }

    /// Closes the number. It is refused as `NotOpen`.
    pub fn close(&mut self, fd: Fd) -> Result<(), DescriptorFault>
        ensures closed { OnOk result ((k : ℕ)
            → table_of self.new k ≡ with_at fd None (table_of self.old) k) }
        ensures open { OnOk result (table_of self.old fd ≢ None) }
        ensures not_open { IfErr result (λ fault. (fault ≡ DescriptorFault.NotOpen)
            × (table_of self.old fd ≡ None)) }
        ensures refused { OnErr result (self.new ≡ self.old) }
    {
        self.get(fd)?;
        self.places[fd.number() as usize] = None;
        Ok(())
    }

    /// Whether some descriptor is one of the entry with this serial.
    pub fn holds(&self, serial: Serial) -> bool
        ensures { IsTrue result ↔ ((n : ℕ) × IsOf serial (table_of self.now n)) }
    {
        self.places.iter().any(|place| is_of(place, serial))
    }
}
