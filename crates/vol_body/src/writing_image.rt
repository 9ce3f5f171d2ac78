//! The new bytes of the data blocks that a write touches.

ghost use Rattle.std.specs.Prelude.{◌≡◌, ◌≤◌, ◌<◌, ◌+◌, ◌-◌, ◌*◌, length, drop};
ghost use Rattle.vol_body.specs.internal.Writing.{image_of};
ghost use Rattle.vol_inode.specs.declared.version.TheConstants.{LARGEST_SIZE};

use crate::source::Source;
use vol_sector::Sector;

/// Where bytes are to be written, and what stands around them.
#[derive(Drop)]
pub struct Piece {
    /// The first byte of the file that is written.
    pub offset: usize,
    /// The old bytes of the first data block that is touched.
    pub first: Sector,
    /// The old bytes of the last data block that is touched.
    pub last: Sector,
}

/// The bytes that are to be written to a data block, and to those after it.
pub fn bytes_from<'m>(piece: &Piece, bytes: &Source<'m>, j: u32) -> Source<'m>
    ensures { result ≡ drop (512 * j - piece.now.offset) bytes.now }
{
    let start = 512 * j as usize;
    bytes.after(start.saturating_sub(piece.offset))
}

/// The new bytes of a data block that is touched. What is left to be written stands at its bytes,
/// and then after them.
pub fn image_of_block(piece: &Piece, bytes: &Source<'_>, rest: &mut Source<'_>, j: u32) -> Sector
    requires before { 512 * j < piece.now.offset + length bytes.now }
    requires starts_before { piece.now.offset < 512 * j + 512 }
    requires small { piece.now.offset + length bytes.now ≤ LARGEST_SIZE }
    requires rest { rest.old ≡ drop (512 * j - piece.now.offset) bytes.now }
    ensures image { result ≡ image_of piece.now.offset bytes.now piece.now.first piece.now.last j }
    ensures rest { rest.new ≡ drop (512 * (j + 1) - piece.now.offset) bytes.now }
{
    let start = 512 * j as usize;
    let end = piece.offset + bytes.len();
    let mut image = if start < piece.offset {
        piece.first
    } else if end < start + 512 {
        piece.last
    } else {
        [0; 512]
    };
    let from = piece.offset.max(start);
    let to = end.min(start + 512);
    rest.read(&mut image[from - start..to - start]);
    image
}
