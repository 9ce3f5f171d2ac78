//! A law over free and taken sectors.

ghost use Rattle.std.specs.Prelude.{◌≡◌, ◌+◌, ◌-◌, ◌≤◌, ℕ, List, true, length};
ghost use Rattle.std.specs.List.{Contains};
ghost use Rattle.vol_alloc.specs.Alloc.{first_of, end_of, taken_of, free_of};
ghost use Rattle.vol_alloc.specs.declared.sectors.Alloc.{Alloc};

/// A law: where a list has each taken sector, all sectors but as many as it has are free.
pub fn listed_sectors_are_taken()
    ensures { (a : Alloc) (listed : List ℕ)
        → ((n : ℕ) → taken_of a n ≡ true → Contains listed n)
        → end_of a - first_of a ≤ free_of a + length listed }
{}
