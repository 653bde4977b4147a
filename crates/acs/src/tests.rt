//! Searchers over streams that are cut, past large sizes, and where memory is refused, and what calls cost.
mod costs;
pub(crate) mod devices;
mod large;
mod refused;
mod streams;

use std::alloc::{AllocError, Global};
use std::fmt::Debug;
use std::process::Abort;

/// Ends the test where what was found is not what was wanted, and says what it was found by.
pub(crate) fn same_by<T: PartialEq + Debug + Drop, B: Debug>(
    rt: &impl Abort,
    found: T,
    wanted: T,
    by: &B,
) {
    assert_eq!(rt; found, wanted, "{by:?}");
}

/// Returns a byte so many times over, with other bytes after it.
pub(crate) fn many(
    alloc: Global,
    byte: u8,
    times: usize,
    end: &[u8],
) -> Result<Vec<u8>, AllocError> {
    let mut bytes = Vec::new(alloc);
    bytes.resize(times, byte)?;
    bytes.extend_from_slice(end)?;
    Ok(bytes)
}
