//! Another handle of the same searcher.
ghost use Rattle.std.specs.Prelude.{◌≡◌, ◌≢◌, ◌⊎◌};
ghost use Rattle.ac_c.specs.Handles.{HoldsSearcher};

use crate::handle::Handle;
use crate::handle::held::Held;
use crate::reader::Reader;
use crate::status::{MEMORY, OK};
use std::alloc::Global;

/// Leaves in `out` another handle of the same searcher. They share its engine, so none is copied, and each is closed by
/// itself. What `out` held before is freed.
///
/// Returns `OK`; or `MEMORY`: then `out` is as it was.
#[unsafe(no_mangle)]
pub extern "C" fn ac_raw_clone(alloc: Global, reader: &mut Reader, out: &mut Handle) -> i32
    ensures status { (result ≡ OK) ⊎ (result ≡ MEMORY) }
    ensures cloned { result ≡ OK → HoldsSearcher out.new.held (λ s. s ≡ reader.old.held.searcher) }
    ensures otherwise { result ≢ OK → out.new ≡ out.old }
    ensures reader { reader.new ≡ reader.old }
{
    let Ok(searcher) = reader.get().searcher.clone() else {
        return MEMORY;
    };
    match Handle::new(alloc, Held::of(searcher)) {
        Ok(handle) => {
            *out = handle;
            OK
        }
        Err(_) => MEMORY,
    }
}
