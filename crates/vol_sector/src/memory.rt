//! A device in memory that keeps a record of what is done to it.

ghost use Rattle.std.specs.Prelude.{◌≡◌, ◌≤◌, ◌<◌, ◌^◌, ◌∷◌, [], ℕ};
ghost use Rattle.std.specs.Prelude.{replicate, vec_len, vec_capacity, IfOk};
ghost use Rattle.std.specs.Prelude.{List, length, count_by, false, min, slice_index_or, ◌+◌};
ghost use Rattle.vol_sector.specs.Counting.{counting};
ghost use Rattle.vol_sector.specs.internal.CountingLaws.{counting_now, only_counting};
ghost use Rattle.vol_sector.specs.Record.{newest, recorded, choices, LeftBy};
ghost use Rattle.vol_sector.specs.Record.{image_of};
ghost use Rattle.vol_sector.specs.internal.RecordLaws.{stays_left, left_now, only_left};
ghost use Rattle.vol_sector.specs.internal.RecordLaws.{begins_itself, begins_further};
ghost use Rattle.vol_sector.specs.internal.PastLaws.{past_same, past_then};
ghost use Rattle.vol_sector.specs.Record.{is_write};
ghost use Rattle.vol_sector.specs.Crash.{written_since, written_below, picked, crashed_image};

use crate::operations::Operations;
use crate::{Device, DeviceFault, Operation, Sector};
use std::alloc::{AllocError, Global};

/// Sectors in memory, with a record of the writes and syncs that were done. A write or sync fails
/// exactly where the record is full, and then changes nothing; a read never fails.
#[derive(Drop)]
pub struct MemoryDevice {
    first: Vec<Sector>,
    current: Vec<Sector>,
    history: Vec<Operation>,
    limit: usize,
    operations: Operations,
    failures: u64,
    ghost same_size: { vec_len first ≡ vec_len current },
    ghost small: { vec_len current < 2 ^ 32 },
    ghost within: { vec_len history ≤ limit },
    ghost reserved: { limit ≤ vec_capacity history },
    ghost agrees: { (n : ℕ) → image_of current.items n
        ≡ newest n (image_of first.items n) history.items },
}

impl MemoryDevice {
    ghost use Rattle.std.specs.Prelude.{true};
    ghost use Rattle.vol_sector.specs.Disk.{Leaves, Keeps, counted};
    ghost use Rattle.vol_sector.specs.Memory.{initial_image, record_of, room_of, sector_count, IsUnused};
    ghost use Rattle.vol_sector.specs.Memory.{operations_of, failures_of, disk_of};

    /// A device of this many sectors of zeros, whose record has room for this many writes and syncs.
    /// It fails only where memory is refused.
    pub fn new(alloc: Global, sectors: u32, room: usize) -> Result<MemoryDevice, AllocError>
        ensures { IfOk result (λ m. IsUnused m sectors room (λ n. replicate 512 0)) }
    {
        let current = vec![in alloc; [0; 512]; sectors as usize]?;
        MemoryDevice::from_sectors(alloc, current, room)
    }

    fn from_sectors(
        alloc: Global,
        current: Vec<Sector>,
        room: usize,
    ) -> Result<MemoryDevice, AllocError>
        requires { vec_len current < 2 ^ 32 }
        ensures { IfOk result (λ m. IsUnused m (vec_len current) room (image_of current.items)) }
    {
        let first = Vec::from_slice(alloc, current.as_slice())?;
        let history = Vec::with_capacity(alloc, room)?;
        Ok(MemoryDevice {
            first,
            current,
            history,
            limit: room,
            operations: Operations::new(),
            failures: 0,
        })
    }

    /// How many writes and syncs were done.
    pub fn recorded(&self) -> usize
        ensures { result ≡ length (record_of self.now) }
    {
        self.history.len()
    }

    /// How many writes were done.
    pub fn writes(&self) -> usize
        ensures { result ≡ count_by is_write (record_of self.now) }
    {
        self.history
            .iter()
            .filter(|operation| is_write(operation))
            .count()
    }

    /// How many sectors were written since the last sync.
    pub fn pending(&self) -> usize
        ensures { result ≡ written_below (record_of self.now) (sector_count self.now) }
    {
        let mut count: usize = 0;
        for n in 0..self.first.len() {
            if was_written(&self.history, n as u32) {
                count += 1;
            }
        }
        count
    }

    /// An unused device with an image that a crash now may leave, and as much room. For the sectors
    /// that were written since the last sync, in rising order, a pick says what the sector holds: 0
    /// the synced value, j the j-th written, and a number past the last the last. A missing pick
    /// counts as 0. It fails only where memory is refused.
    pub fn crashed(&self, alloc: Global, picks: &[u32]) -> Result<MemoryDevice, AllocError>
        ensures { IfOk result (λ m. IsUnused m (sector_count self.now) (room_of self.now)
            (crashed_image (initial_image self.now) (record_of self.now) picks.now)) }
    {
        let mut image = Vec::new(alloc);
        let mut used: usize = 0;
        for n in 0..self.first.len() {
            let written = was_written(&self.history, n as u32);
            let pick = if written {
                take_pick(picks, &mut used)
            } else {
                0
            };
            image.push(choice(&self.first[n], &self.history, n as u32, pick))?;
        }
        MemoryDevice::from_sectors(alloc, image, self.limit)
    }

    /// Counts an operation that fails, which changes nothing else.
    fn fail(&mut self) -> DeviceFault
        ensures operations { operations_of self.new ≡ false ∷ operations_of self.old }
        ensures failures { failures_of self.new ≡ counted true (failures_of self.old) }
        ensures first { initial_image self.new ≡ initial_image self.old }
        ensures record { record_of self.new ≡ record_of self.old }
        ensures room { room_of self.new ≡ room_of self.old }
        ensures sectors { sector_count self.new ≡ sector_count self.old }
        ensures crash { Leaves (disk_of self.old) (disk_of self.new) (λ c. ⊥) }
        ensures keeps { Keeps (disk_of self.old) (disk_of self.new) }
    {
        self.operations = self.operations.and(false);
        self.failures = self.failures.saturating_add(1);
        DeviceFault
    }
}

fn is_write(operation: &Operation) -> bool
    ensures { result ≡ is_write operation.now }
{
    matches!(operation, Operation::Write(_, _))
}

/// Was the sector written since the last sync?
fn was_written(operations: &[Operation], n: u32) -> bool
    ensures { result ≡ written_since n false operations.now }
{
    let mut written = false;
    for operation in operations {
        match operation {
            Operation::Sync => written = false,
            Operation::Write(sector, _) => {
                if *sector == n {
                    written = true;
                }
            }
        }
    }
    written
}

/// The next pick, or 0 where all are used.
fn take_pick(picks: &[u32], used: &mut usize) -> u32
    requires { used.old ≤ length picks.now }
    ensures pick { result ≡ slice_index_or picks.now used.old 0 }
    ensures used { used.new ≡ min (used.old + 1) (length picks.now) }
{
    if *used == picks.len() {
        return 0;
    }
    let pick = picks[*used];
    *used += 1;
    pick
}

/// The value that a crash leaves in the sector by this pick.
fn choice(first: &Sector, operations: &[Operation], n: u32, pick: u32) -> Sector
    ensures { result ≡ picked (choices n first.now (first.now ∷ []) operations.now) pick }
{
    let mut newest = *first;
    let mut chosen = *first;
    let mut count: u32 = 0;
    for operation in operations {
        match operation {
            Operation::Sync => {
                chosen = newest;
                count = 0;
            }
            Operation::Write(sector, image) => {
                if *sector == n {
                    newest = *image;
                    if count < pick {
                        chosen = newest;
                        count += 1;
                    }
                }
            }
        }
    }
    chosen
}

impl Device for MemoryDevice {
    ghost use Rattle.std.specs.Prelude.{◌⊎◌, ◌↔◌, ◌++◌, OnOk, OnErr, IsOk, IsErr, is_err, refl};
    ghost use Rattle.std.proofs.Common.{◌∙◌};
    ghost use Rattle.vol_sector.specs.Disk.{put, After, Wrote, Only, Leaves, Keeps};
    ghost use Rattle.vol_sector.specs.Disk.{counted, OneMore};
    ghost use Rattle.vol_sector.specs.Memory.{initial_image, record_of, room_of, sector_count};
    ghost use Rattle.vol_sector.specs.Past.{StillGoesOn};
    ghost use Rattle.vol_sector.specs.Memory.{failures_of, disk_of, IsUnchanged, GoesOn};
    ghost use Rattle.vol_sector.specs.declared.record.Operation.TheVariants.{Write, Sync};

    ghost disk = { λ m.
        counting m.operations.outcomes (recorded (image_of m.first.items) m.history.items) };

    ghost honest = { λ m. Unit {0} };

    ghost size = { λ m. vec_len m.current };

    ghost failures = { λ m. m.failures };

    ghost goes_on = { λ end first later. GoesOn end first later };

    ghost counts_now = { λ m t c h le may. counting_now m.operations.outcomes
        (recorded (image_of m.first.items) m.history.items)
        (left_now (image_of m.first.items) m.history.items) t c le may };

    ghost only_now = { λ m c h left. only_counting m.operations.outcomes
        (recorded (image_of m.first.items) m.history.items)
        (only_left (image_of m.first.items) m.history.items) c left };

    ghost may_stay = { λ m h. stays_left (image_of m.first.items) m.history.items };

    ghost begins = { λ end m. record {
      began = refl;
      more = [];
      recorded = begins_itself m.history.items;
      past = past_same end (counting m.operations.outcomes (recorded (image_of m.first.items) m.history.items));
    } };

    ghost goes_further = { λ end a b c one two. record {
      began = two.began ∙ one.began;
      more = one.more ++ two.more;
      recorded = begins_further a.history.items b.history.items c.history.items one.more two.more
          one.recorded two.recorded;
      past = past_then end _ _ _ one.past two.past;
    } };

    ghost leaves_past = { λ end first later h from. from.past };

    fn sectors(&self) -> u32 {
        self.current.len() as u32
    }

    fn failures(&self) -> u64 {
        self.failures
    }

    fn read(&mut self, n: u32) -> Result<Sector, DeviceFault>
        requires { n < sector_count self.old }
        ensures bytes { Unit {0} → IfOk result (λ bytes. bytes ≡ (disk_of self.old).seen n) }
        ensures seen { Unit {0} → (disk_of self.new).seen ≡ (disk_of self.old).seen }
        ensures crash { Unit {0} → Leaves (disk_of self.old) (disk_of self.new) (λ c. ⊥) }
        ensures keeps { Unit {0} → Keeps (disk_of self.old) (disk_of self.new) }
        ensures operation_count { Unit {0} → OneMore (disk_of self.old) (disk_of self.new) }
        ensures honest { Unit {0} ↔ Unit {0} }
        ensures size { sector_count self.new ≡ sector_count self.old }
        ensures failures { failures_of self.new ≡ counted (is_err result) (failures_of self.old) }
        ensures goes_on { (end : ℕ) → StillGoesOn (GoesOn end) self.old self.new }
        ensures never_fails { IsOk result }
        ensures same { IsUnchanged self.old self.new }
    {
        self.operations = self.operations.and(false); // a read is tried, but not recorded
        Ok(self.current[n as usize])
    }

    // So many clauses, since a method's stand in place of its trait's: the first nine, to `goes_on`, are
    // those of any device, and the others say when the record is full and what is recorded.
    fn write(&mut self, n: u32, image: &Sector) -> Result<(), DeviceFault>
        requires { n < sector_count self.old }
        ensures written { Unit {0}
            → OnOk result ((disk_of self.new).seen ≡ put n image.now (disk_of self.old).seen) }
        ensures seen { Unit {0}
            → Wrote n image.now (disk_of self.old).seen (disk_of self.new).seen }
        ensures crash { Unit {0} → Leaves (disk_of self.old) (disk_of self.new)
            (After (Wrote n image.now) (disk_of self.old).may_leave) }
        ensures keeps { Unit {0} → Keeps (disk_of self.old) (disk_of self.new) }
        ensures operation_count { Unit {0} → OneMore (disk_of self.old) (disk_of self.new) }
        ensures honest { Unit {0} ↔ Unit {0} }
        ensures size { sector_count self.new ≡ sector_count self.old }
        ensures failures { failures_of self.new ≡ counted (is_err result) (failures_of self.old) }
        ensures goes_on { (end : ℕ) → n < end → StillGoesOn (GoesOn end) self.old self.new }
        ensures full { room_of self.old ≤ length (record_of self.old)
            → IsErr result × (record_of self.new ≡ record_of self.old) }
        ensures fits { length (record_of self.old) < room_of self.old
            → IsOk result × (record_of self.new ≡ record_of self.old ++ Write n image.now ∷ []) }
        ensures first { initial_image self.new ≡ initial_image self.old }
        ensures room { room_of self.new ≡ room_of self.old }
    {
        if self.history.len() >= self.limit {
            return Err(self.fail());
        }
        let image = *image;
        match self.history.push(Operation::Write(n, image)) {
            Ok(()) => {
                self.current[n as usize] = image;
                self.operations = self.operations.and(true); // the write is in the record now
                Ok(())
            }
            Err(_) => Err(self.fail()),
        }
    }

    fn sync(&mut self) -> Result<(), DeviceFault>
        ensures durable { Unit {0}
            → OnOk result (Only (disk_of self.old).seen (disk_of self.new).may_leave) }
        ensures seen { Unit {0} → (disk_of self.new).seen ≡ (disk_of self.old).seen }
        ensures crash { Unit {0} → Leaves (disk_of self.old) (disk_of self.new) (λ c. ⊥) }
        ensures keeps { Unit {0} → Keeps (disk_of self.old) (disk_of self.new) }
        ensures operation_count { Unit {0} → OneMore (disk_of self.old) (disk_of self.new) }
        ensures honest { Unit {0} ↔ Unit {0} }
        ensures size { sector_count self.new ≡ sector_count self.old }
        ensures failures { failures_of self.new ≡ counted (is_err result) (failures_of self.old) }
        ensures goes_on { (end : ℕ) → StillGoesOn (GoesOn end) self.old self.new }
        ensures full { room_of self.old ≤ length (record_of self.old)
            → IsErr result × (record_of self.new ≡ record_of self.old) }
        ensures fits { length (record_of self.old) < room_of self.old
            → IsOk result × (record_of self.new ≡ record_of self.old ++ Sync ∷ []) }
        ensures first { initial_image self.new ≡ initial_image self.old }
        ensures room { room_of self.new ≡ room_of self.old }
    {
        if self.history.len() >= self.limit {
            return Err(self.fail());
        }
        match self.history.push(Operation::Sync) {
            Ok(()) => {
                self.operations = self.operations.and(true);
                Ok(())
            }
            Err(_) => Err(self.fail()),
        }
    }
}
