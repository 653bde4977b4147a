//! All bytes of a reader.
ghost use Rattle.acs.specs.Modes.{ReadsBytes};

use crate::fault::Fault;
use ac_search::Source;
use std::alloc::Allocator;

/// How many bytes are asked for at once.
const PIECE: usize = 65536;

/// Reads until a read gives no byte, and no further.
///
/// # Errors
/// `Io` where a read fails, `Memory` where a request for memory is refused.
pub(crate) fn read_all<A: Allocator + Clone, R: Source>(
    alloc: A,
    reader: &mut R,
) -> Result<Vec<u8, A>, Fault>
    ensures { ReadsBytes R.empty_means_end (R.told reader.old) (R.told reader.new) result }
{
    let mut bytes = Vec::new(alloc.clone()?);
    let mut piece = Vec::new(alloc);
    piece.resize(PIECE, 0)?;
    for _ in 0..u64::MAX {
        match reader.read_some(&mut piece) {
            Ok(0) => return Ok(bytes),
            Ok(n) => bytes.extend_from_slice(&piece[..n])?,
            Err(_) => return Err(Fault::Io),
        }
    }
    unreachable!()
}
