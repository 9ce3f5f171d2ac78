//! A device of which chosen operations fail.

ghost use Rattle.std.specs.Prelude.{◌≡◌, ◌+◌, ◌-◌, ◌^◌, ◌<◌, ◌≢◌, ◌↔◌, ◌∷◌, ℕ, min, not, true, false};
ghost use Rattle.vol_sector.specs.Disk.{counted};
ghost use Rattle.vol_sector.specs.Counting.{counting};
ghost use Rattle.vol_sector.specs.internal.CountingLaws.{counting_now, only_counting};
ghost use Rattle.vol_sector.specs.internal.PastLaws.{past_same, past_then};

use crate::operations::Operations;
use crate::{Device, DeviceFault, Sector};

/// A count of operations (reads, writes and syncs) that goes down to 0 and stays there.
#[derive(Drop)]
struct Countdown {
    left: u64,
    failures: u64,
    operations: Operations,
}

impl Countdown {
    /// Counts an operation, which fails where the count is this: does it pass?
    fn passes(&mut self, fails_at: u64) -> bool
        ensures fails { self.old.left ≡ fails_at → result ≡ false }
        ensures passes { self.old.left ≢ fails_at → result ≡ true }
        ensures left { self.new.left ≡ self.old.left - 1 }
        ensures failures { self.new.failures ≡ counted (not result) self.old.failures }
        ensures operations { self.new.operations.outcomes
            ≡ result ∷ self.old.operations.outcomes }
    {
        let fails = self.left == fails_at;
        self.left = self.left.saturating_sub(1);
        if fails {
            self.failures = self.failures.saturating_add(1);
        }
        self.operations = self.operations.and(!fails);
        !fails
    }
}

/// Counts operations down, and fails those, without effect, at which the count is `FAILS_AT`. All others it
/// passes to its device.
#[derive(Drop)]
pub struct FaultyDevice<D, const FAILS_AT: u64> {
    device: D,
    count: Countdown,
}

/// Passes a number of operations, and then fails all.
pub type FuseDevice<D> = FaultyDevice<D, 0>;

/// Fails the operation with a number, counted from 1, and passes all others. With 0 it fails none.
pub type FlakyDevice<D> = FaultyDevice<D, 1>;

impl<D: Device, const FAILS_AT: u64> FaultyDevice<D, FAILS_AT> {
    ghost use Rattle.vol_sector.specs.Faulty.{device_of, left_of, injected_failures, faulty_disk};

    /// The device, with the count that begins with this number of operations.
    pub fn new(device: D, operations: u64) -> Self
        ensures device { device_of result ≡ device }
        ensures left { left_of result ≡ operations }
        ensures failures { injected_failures result ≡ 0 }
        ensures operation_count { (faulty_disk D.disk result).operation_count ≡ 0 }
    {
        FaultyDevice {
            device,
            count: Countdown {
                left: operations,
                failures: 0,
                operations: Operations::new(),
            },
        }
    }

    /// The device as it is now.
    pub fn into_inner(self) -> D
        ensures { result ≡ device_of self }
    {
        let FaultyDevice { device, count: _ } = self;
        device
    }
}

impl<D: Device, const FAILS_AT: u64> Device for FaultyDevice<D, FAILS_AT> {
    ghost use Rattle.std.specs.Prelude.{◌≤◌, ◌==◌, List, IfOk, OnOk, IsErr, is_err};
    ghost use Rattle.vol_sector.specs.Disk.{Image, put, After, Wrote, Only, Leaves, Keeps};
    ghost use Rattle.vol_sector.specs.Disk.{OneMore, OneOperation, both_counts};
    ghost use Rattle.vol_sector.specs.Past.{StillGoesOn};
    ghost use Rattle.vol_sector.specs.Faulty.{device_of, left_of, injected_failures, faulty_disk, GoesOn};

    ghost disk = { λ f. counting f.count.operations.outcomes (D.disk f.device) };

    ghost honest = { λ f. D.honest f.device };

    ghost size = { λ f. D.size f.device };

    ghost failures = { λ f. both_counts (D.failures f.device) f.count.failures };

    ghost goes_on = { λ end first later. GoesOn D.honest D.disk D.goes_on end first later };

    ghost counts_now = { λ f t c h le may. counting_now f.count.operations.outcomes
        (D.disk f.device) (λ s x past left. D.counts_now f.device s x h past left)
        t c le may };

    ghost only_now = { λ f c h left. only_counting f.count.operations.outcomes
        (D.disk f.device) (λ x last. D.only_now f.device x h last) c left };

    ghost may_stay = { λ f h. D.may_stay f.device h };

    ghost begins = { λ end f. record {
      device = D.begins end f.device;
      honest = λ h. h;
      past = λ h. past_same end (counting f.count.operations.outcomes (D.disk f.device));
    } };

    ghost goes_further = { λ end a b c one two. record {
      device = D.goes_further end a.device b.device c.device one.device two.device;
      honest = λ h. two.honest (one.honest h);
      past = λ h. past_then end _ _ _ (one.past h) (two.past (one.honest h));
    } };

    ghost leaves_past = { λ end first later h from. from.past h };

    fn sectors(&self) -> u32 {
        self.device.sectors()
    }

    fn failures(&self) -> u64 {
        self.device.failures().saturating_add(self.count.failures)
    }

    // So many clauses, since a method's stand in place of its trait's: the first nine, to `goes_on`, are
    // those of any device, and the others say which operation fails and what the device inside does.
    fn read(&mut self, n: u32) -> Result<Sector, DeviceFault>
        requires { n < D.size (device_of self.old) }
        ensures bytes { D.honest (device_of self.old)
            → IfOk result (λ bytes. bytes ≡ (faulty_disk D.disk self.old).seen n) }
        ensures seen { D.honest (device_of self.old)
            → (faulty_disk D.disk self.new).seen ≡ (faulty_disk D.disk self.old).seen }
        ensures crash { D.honest (device_of self.old)
            → Leaves (faulty_disk D.disk self.old) (faulty_disk D.disk self.new) (λ c. ⊥) }
        ensures keeps { D.honest (device_of self.old)
            → Keeps (faulty_disk D.disk self.old) (faulty_disk D.disk self.new) }
        ensures operation_count { D.honest (device_of self.old)
            → OneMore (faulty_disk D.disk self.old) (faulty_disk D.disk self.new) }
        ensures honest { D.honest (device_of self.old) ↔ D.honest (device_of self.new) }
        ensures size { D.size (device_of self.new) ≡ D.size (device_of self.old) }
        ensures failures { both_counts (D.failures (device_of self.new))
            (injected_failures self.new)
            ≡ counted (is_err result)
            (both_counts (D.failures (device_of self.old)) (injected_failures self.old)) }
        ensures goes_on { (end : ℕ)
            → StillGoesOn (GoesOn D.honest D.disk D.goes_on end) self.old self.new }
        ensures count { left_of self.new ≡ left_of self.old - 1 }
        ensures fails { left_of self.old ≡ FAILS_AT
            → IsErr result × (device_of self.new ≡ device_of self.old) }
        ensures passes { left_of self.old ≢ FAILS_AT
            → D.failures (device_of self.new)
            ≡ counted (is_err result) (D.failures (device_of self.old)) }
        ensures passes_on { left_of self.old ≢ FAILS_AT → D.honest (device_of self.old)
            → OneOperation (D.disk (device_of self.old)) (D.disk (device_of self.new)) (λ c. ⊥) }
    {
        if !self.count.passes(FAILS_AT) {
            return Err(DeviceFault);
        }
        self.device.read(n)
    }

    // The same groups as of `read`.
    fn write(&mut self, n: u32, image: &Sector) -> Result<(), DeviceFault>
        requires { n < D.size (device_of self.old) }
        ensures written { D.honest (device_of self.old)
            → OnOk result ((faulty_disk D.disk self.new).seen
            ≡ put n image.now (faulty_disk D.disk self.old).seen) }
        ensures seen { D.honest (device_of self.old)
            → Wrote n image.now (faulty_disk D.disk self.old).seen
            (faulty_disk D.disk self.new).seen }
        ensures crash { D.honest (device_of self.old)
            → Leaves (faulty_disk D.disk self.old) (faulty_disk D.disk self.new)
            (After (Wrote n image.now) (faulty_disk D.disk self.old).may_leave) }
        ensures keeps { D.honest (device_of self.old)
            → Keeps (faulty_disk D.disk self.old) (faulty_disk D.disk self.new) }
        ensures operation_count { D.honest (device_of self.old)
            → OneMore (faulty_disk D.disk self.old) (faulty_disk D.disk self.new) }
        ensures honest { D.honest (device_of self.old) ↔ D.honest (device_of self.new) }
        ensures size { D.size (device_of self.new) ≡ D.size (device_of self.old) }
        ensures failures { both_counts (D.failures (device_of self.new))
            (injected_failures self.new)
            ≡ counted (is_err result)
            (both_counts (D.failures (device_of self.old)) (injected_failures self.old)) }
        ensures goes_on { (end : ℕ) → n < end
            → StillGoesOn (GoesOn D.honest D.disk D.goes_on end) self.old self.new }
        ensures count { left_of self.new ≡ left_of self.old - 1 }
        ensures fails { left_of self.old ≡ FAILS_AT
            → IsErr result × (device_of self.new ≡ device_of self.old) }
        ensures passes { left_of self.old ≢ FAILS_AT
            → D.failures (device_of self.new)
            ≡ counted (is_err result) (D.failures (device_of self.old)) }
        ensures passes_on { left_of self.old ≢ FAILS_AT → D.honest (device_of self.old)
            → OneOperation (D.disk (device_of self.old)) (D.disk (device_of self.new))
            (After (Wrote n image.now) (D.disk (device_of self.old)).may_leave) }
    {
        if !self.count.passes(FAILS_AT) {
            return Err(DeviceFault);
        }
        self.device.write(n, image)
    }

    fn sync(&mut self) -> Result<(), DeviceFault>
        ensures durable { D.honest (device_of self.old)
            → OnOk result (Only (faulty_disk D.disk self.old).seen
            (faulty_disk D.disk self.new).may_leave) }
        ensures seen { D.honest (device_of self.old)
            → (faulty_disk D.disk self.new).seen ≡ (faulty_disk D.disk self.old).seen }
        ensures crash { D.honest (device_of self.old)
            → Leaves (faulty_disk D.disk self.old) (faulty_disk D.disk self.new) (λ c. ⊥) }
        ensures keeps { D.honest (device_of self.old)
            → Keeps (faulty_disk D.disk self.old) (faulty_disk D.disk self.new) }
        ensures operation_count { D.honest (device_of self.old)
            → OneMore (faulty_disk D.disk self.old) (faulty_disk D.disk self.new) }
        ensures honest { D.honest (device_of self.old) ↔ D.honest (device_of self.new) }
        ensures size { D.size (device_of self.new) ≡ D.size (device_of self.old) }
        ensures failures { both_counts (D.failures (device_of self.new))
            (injected_failures self.new)
            ≡ counted (is_err result)
            (both_counts (D.failures (device_of self.old)) (injected_failures self.old)) }
        ensures goes_on { (end : ℕ)
            → StillGoesOn (GoesOn D.honest D.disk D.goes_on end) self.old self.new }
        ensures count { left_of self.new ≡ left_of self.old - 1 }
        ensures fails { left_of self.old ≡ FAILS_AT
            → IsErr result × (device_of self.new ≡ device_of self.old) }
        ensures passes { left_of self.old ≢ FAILS_AT
            → D.failures (device_of self.new)
            ≡ counted (is_err result) (D.failures (device_of self.old)) }
        ensures passes_on { left_of self.old ≢ FAILS_AT → D.honest (device_of self.old)
            → OneOperation (D.disk (device_of self.old)) (D.disk (device_of self.new)) (λ c. ⊥) }
    {
        if !self.count.passes(FAILS_AT) {
            return Err(DeviceFault);
        }
        self.device.sync()
    }
}
