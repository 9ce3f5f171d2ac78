//! A device in memory that records what is done to it.

ghost use Rattle.std.specs.Prelude.{◌≡◌, ◌<◌, ◌≤◌, ◌++◌, ◌∷◌, [], ℕ, Bool, true, false, IfOk, length, replicate, slice_get, option_copied, count_by};
ghost use Rattle.vol_sector.specs.Record.{newest, image_of};
ghost use Rattle.sandbox_device.specs.Recorded.{written_by};
ghost use Rattle.sandbox_device.specs.internal.RecordedLaws.{now_is_since, now_is_all, now_may_stay};

use crate::history::History;
use crate::sectors::Sectors;
use std::alloc::{AllocError, Global};
use vol_sector::{Device, DeviceFault, Operation, Sector};

/// Sectors in memory, and where that was asked for a record of the writes and syncs that were done, for whoever does them on a
/// disk, in order. A crash leaves of such a disk each sector at its value of the last sync or at any value that was written
/// since. No operation fails: where memory for the record is refused, it isn't whole from then on.
#[derive(Drop)]
pub struct RecordedDevice {
    sectors: Sectors,
    noted: Vec<Operation>,
    is_recorded: bool,
    is_whole: bool,
    history: History,
    ghost agrees: { (n : ℕ) → image_of sectors n ≡ newest n (image_of history.first n) history.done },
    ghost counted: { count_by (λ passed. passed) history.outcomes ≡ length history.done },
    ghost whole: { is_whole ≡ true → noted.items ≡ history.done },
}

/// Adds an operation to a record that is whole. Where memory is refused, it isn't whole any more.
fn note(so_far: &mut Vec<Operation>, is_whole: &mut bool, operation: &Operation)
    ensures { is_whole.new ≡ true → (is_whole.old ≡ true)
        × (so_far.new.items ≡ so_far.old.items ++ operation.now ∷ []) }
{
    if *is_whole {
        *is_whole = so_far.push(*operation).is_ok();
    }
}

impl RecordedDevice {
    /// A device of this many sectors of zeros, which keeps no record. It fails only where memory is refused.
    pub fn new(alloc: Global, sectors: u32) -> Result<RecordedDevice, AllocError>
        ensures { IfOk result (λ d. d.sectors ≡ replicate sectors (replicate 512 0)) }
    {
        let sectors = Sectors::zeros(alloc, sectors)?;
        Ok(RecordedDevice::from_sectors(alloc, sectors, false))
    }

    /// A device of these sectors, which keeps a record or not. It fails only where memory is refused.
    pub fn of(
        alloc: Global,
        sectors: &[Sector],
        is_recorded: bool,
    ) -> Result<RecordedDevice, AllocError>
        requires { length sectors.now ≤ 16777216 }
        ensures sectors { IfOk result (λ d. d.sectors ≡ sectors.now) }
        ensures unused { IfOk result (λ d. (d.history.first ≡ sectors.now) × (d.history.done ≡ [])
            × (d.history.outcomes ≡ [])) }
        ensures recorded { IfOk result (λ d. (d.is_recorded ≡ is_recorded)
            × (d.is_whole ≡ is_recorded)) }
    {
        let sectors = Sectors::of(alloc, sectors)?;
        Ok(RecordedDevice::from_sectors(alloc, sectors, is_recorded))
    }

    fn from_sectors(alloc: Global, sectors: Sectors, is_recorded: bool) -> RecordedDevice
        ensures sectors { result.sectors ≡ sectors }
        ensures unused { (result.history.first ≡ sectors) × (result.history.done ≡ [])
            × (result.history.outcomes ≡ []) }
        ensures recorded { (result.is_recorded ≡ is_recorded) × (result.is_whole ≡ is_recorded) }
    {
        let history = History::of(&sectors);
        RecordedDevice {
            sectors,
            noted: Vec::new(alloc),
            is_recorded,
            is_whole: is_recorded,
            history,
        }
    }

    /// The bytes of a sector.
    pub fn sector(&self, n: u32) -> Sector
        requires { n < length self.now.sectors }
        ensures { result ≡ image_of self.now.sectors n }
    {
        self.sectors.get(n)
    }

    /// Whether a record was asked for.
    pub fn is_recorded(&self) -> bool
        ensures { result ≡ self.now.is_recorded }
    {
        self.is_recorded
    }

    /// Whether the record has all writes and syncs.
    pub fn is_whole(&self) -> bool
        ensures { result ≡ self.now.is_whole }
    {
        self.is_whole
    }

    /// The write or sync with this number, from 0 on, in the order in which they were done; none past the last. Of a record that
    /// isn't whole it may be any.
    pub fn operation(&self, n: usize) -> Option<&Operation>
        ensures { self.now.is_whole ≡ true → option_copied result ≡ slice_get self.now.history.done
            n }
    {
        self.noted.get(n)
    }
}

impl Device for RecordedDevice {
    ghost use Rattle.sandbox_device.specs.Followed.{GoesOn};
    ghost use Rattle.sandbox_device.specs.Recorded.{written_by};
    ghost use Rattle.sandbox_device.specs.internal.RecordedLaws.{now_is_since, now_is_all, now_may_stay};
    ghost use Rattle.std.specs.Prelude.{◌++◌, [], refl};
    ghost use Rattle.std.proofs.Common.{◌∙◌};
    ghost use Rattle.vol_sector.specs.internal.PastLaws.{past_same, past_then};
    ghost use Rattle.vol_sector.specs.internal.RecordLaws.{begins_itself, begins_further};

    ghost disk = { λ d. written_by d.sectors d.history.first d.history.done d.history.outcomes };

    ghost honest = { λ d. Unit {0} };

    ghost size = { λ d. length d.sectors };

    ghost failures = { λ d. 0 };

    ghost goes_on = { λ end first later. GoesOn end first later };

    ghost counts_now = { λ d t c h le may.
        now_is_since d.sectors d.history.first d.history.done d.history.outcomes t c le may };

    ghost only_now = { λ d c h left.
        now_is_all d.sectors d.history.first d.history.done d.history.outcomes c left };

    ghost may_stay = { λ d h.
        now_may_stay d.sectors d.history.first d.history.done d.history.outcomes d.agrees };

    ghost begins = { λ end d. record {
      began = refl;
      is_recorded = refl;
      more = [];
      recorded = begins_itself d.history.done;
      past = past_same end
          (written_by d.sectors d.history.first d.history.done d.history.outcomes);
    } };

    ghost goes_further = { λ end a b c one two. record {
      began = two.began ∙ one.began;
      is_recorded = two.is_recorded ∙ one.is_recorded;
      more = one.more ++ two.more;
      recorded = begins_further a.history.done b.history.done c.history.done one.more two.more
          one.recorded two.recorded;
      past = past_then end _ _ _ one.past two.past;
    } };

    ghost leaves_past = { λ end first later h from. from.past };

    fn sectors(&self) -> u32 {
        self.sectors.len() as u32
    }

    fn failures(&self) -> u64 {
        0
    }

    fn read(&mut self, n: u32) -> Result<Sector, DeviceFault> {
        self.history = self.history.quiet();
        Ok(self.sectors.get(n))
    }

    fn write(&mut self, n: u32, image: &Sector) -> Result<(), DeviceFault> {
        let operation = Operation::Write(n, *image);
        note(&mut self.noted, &mut self.is_whole, &operation);
        self.sectors.put(n, image);
        self.history = self.history.and(&operation);
        Ok(())
    }

    fn sync(&mut self) -> Result<(), DeviceFault> {
        let operation = Operation::Sync;
        note(&mut self.noted, &mut self.is_whole, &operation);
        self.history = self.history.and(&operation);
        Ok(())
    }
}
