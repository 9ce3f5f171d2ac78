//! The index of the batch: the numbers of the staged sectors in rising order, each with its place
//! in the batch.

ghost use Rattle.std.specs.Prelude.{IfErr, IfOk};
ghost use Rattle.vol_log.specs.internal.Index.{IsEntryOfNumber, IsGapFor};
ghost use Rattle.vol_log.specs.internal.Index.{Rises};

/// Where the sector's entry is, or where it would go.
pub fn search(index: &[(u32, usize)], sector: u32) -> Result<usize, usize>
    requires { Rises index.now }
    ensures found { IfOk result (IsEntryOfNumber index.now sector) }
    ensures absent { IfErr result (IsGapFor index.now sector) }
{
    index.binary_search_by_key(&sector, |&(staged, _)| staged)
}
