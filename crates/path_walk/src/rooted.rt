//! Paths from the root of a volume.

ghost use Rattle.std.specs.Prelude.{◌≡◌, IfOk, false};
ghost use Rattle.vol_tree.specs.Clauses.{is_io};
ghost use Rattle.path_walk.specs.Walk.{Asked, GivesBoth, IsReached};
ghost use Rattle.path_walk.specs.Rooted.{reached_from_root};

use crate::{Path, Reached, walk};
use vol_sector::Device;
use vol_tree::{Errno, Serial, Volume};

/// What a path reaches from the root, and whether it wants a directory. The empty path is the root;
/// of any other all is said by `Path::read` and `walk`.
pub fn walk_from_root<'p, D: Device>(
    volume: &mut Volume<D>,
    path: &'p [u8],
) -> Result<(Reached<'p>, bool), Errno>
    requires { volume.old.failed ≡ false }
    ensures answer { D.honest volume.old.device
        → GivesBoth (reached_from_root volume.old.tree path.now) result }
    ensures asked { Asked D.honest D.disk D.size D.failures D.goes_on volume.old volume.new
        (is_io result) }
    ensures reached { IfOk result (λ r. IsReached D.honest volume.new r.0) }
{
    volume.is_a_tree(); // a law: the root is there
    if path.is_empty() {
        return Ok((Reached::Found(Serial::ROOT.number()), false));
    }
    let read = Path::read(path)?;
    let found = walk(volume, Serial::ROOT, &read)?;
    Ok((found, read.wants_dir()))
}
