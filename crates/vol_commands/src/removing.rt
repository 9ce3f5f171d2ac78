//! Removing a whole tree: an entry of a volume with all that is below it.

ghost use Rattle.std.specs.Prelude.{◌≡◌, ◌≢◌, true, Ok, None, IfOk, MatchResult};
ghost use Rattle.vol_sector.specs.Disk.{Leaves};
ghost use Rattle.vol_tree.specs.Tree.{changed, is_empty};
ghost use Rattle.vol_tree.specs.Calls.{parent_at};
ghost use Rattle.vol_tree.specs.Clauses.{Answers, is_io};
ghost use Rattle.vol_tree.specs.Opened.{IsSerial, Keeps, GoesOn, ReflectsOr};
ghost use Rattle.path_walk.specs.Walk.{Asked, IsEntryOf};
ghost use Rattle.vol_commands.specs.Changes.{IsPartOfRemoval, IsThinned, tree_removed, without};
ghost use Rattle.vol_commands.specs.internal.Changing.{Applied, IsLeafBelow};
ghost use Rattle.vol_commands.specs.internal.Working.{IsWorking};

use crate::printing::next_entry;
use crate::volume_path::serial_named;
use vol_inode::Kind;
use vol_sector::Device;
use vol_tree::{Errno, Serial, Volume};

/// An entry in which nothing stands: this one or one below it.
fn leaf_below<D: Device>(volume: &mut Volume<D>, from: Serial) -> Result<Serial, Errno>
    requires working { IsWorking volume.old }
    requires from { IsEntryOf D.honest volume.old from }
    ensures asked { Asked D.honest D.disk D.size D.failures D.goes_on volume.old volume.new
        (is_io result) }
    ensures entry { IfOk result (IsEntryOf D.honest volume.new) }
    ensures answer { D.honest volume.old.device → MatchResult result
        (IsLeafBelow volume.old.tree from) (λ e. e ≡ Errno.Io) }
{
    volume.is_a_tree(); // a law: a way down ends
    let mut here = from;
    for _depth in 0..u64::MAX {
        match next_entry(volume, here, 0)? {
            Some(child) => here = child,
            None => return Ok(here),
        }
    }
    Err(Errno::Invalid) // no honest device shows such a way
}

/// Takes an entry in which nothing stands out of its directory, and says which that is.
fn remove_leaf<D: Device>(volume: &mut Volume<D>, leaf: Serial) -> Result<Serial, Errno>
    requires working { IsWorking volume.old }
    requires leaf { IsEntryOf D.honest volume.old leaf }
    requires root { D.honest volume.old.device → leaf ≢ 1 }
    requires bare { D.honest volume.old.device → is_empty volume.old.tree leaf ≡ true }
    ensures answer { D.honest volume.old.device
        → Answers (Ok (changed volume.old.tree leaf None, parent_at volume.old.tree leaf))
        volume.old.tree volume.new.tree result }
    ensures crash { D.honest volume.old.device
        → Leaves (D.disk volume.old.device) (D.disk volume.new.device)
        (ReflectsOr (D.disk volume.old.device) volume.old.numbers volume.old.tree) }
    ensures kept { Keeps D.honest D.size D.failures volume.old volume.new (is_io result) }
    ensures goes_on { GoesOn D.goes_on volume.old volume.new }
    ensures range { IfOk result (IsSerial volume.old.numbers) }
{
    volume.is_a_tree();
    let stat = volume.stat(leaf)?;
    match stat.kind {
        Kind::Directory => volume.rmdir(leaf)?,
        Kind::File => volume.unlink(leaf)?,
    }
    Ok(stat.parent)
}

/// Removes an entry, which isn't the root, and all below it: each after what stands in it.
fn remove_tree<D: Device>(volume: &mut Volume<D>, top: Serial) -> Result<(), Errno>
    requires working { IsWorking volume.old }
    requires top { IsEntryOf D.honest volume.old top }
    requires root { top ≢ 1 }
    ensures { Applied D.honest D.disk D.size D.failures D.goes_on (λ T. Ok (without T top))
        (λ T. IsThinned T top) volume.old volume.new result }
{
    volume.is_a_tree(); // a law: there are no more entries than slots
    let mut here = top;
    for _removed in 0..u64::MAX {
        let leaf = leaf_below(volume, here)?;
        here = remove_leaf(volume, leaf)?;
        if leaf == top {
            return Ok(());
        }
    }
    Err(Errno::Invalid) // no honest device shows so many entries
}

/// Removes the entry of a path and all below it. The root stays, with all that is there.
pub(crate) fn remove_all<D: Device>(volume: &mut Volume<D>, path: &str) -> Result<(), Errno>
    requires { IsWorking volume.old }
    ensures { Applied D.honest D.disk D.size D.failures D.goes_on (λ T. tree_removed T path.now)
        (λ T. IsPartOfRemoval T path.now) volume.old volume.new result }
{
    let top = serial_named(volume, path)?;
    if top == Serial::ROOT {
        return Err(Errno::Invalid);
    }
    remove_tree(volume, top)
}
