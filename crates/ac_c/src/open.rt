//! The build of a searcher, and its end.
ghost use Rattle.std.specs.Prelude.{◌≡◌, ◌≢◌};
ghost use Rattle.ac_c.specs.Handles.{HoldsSearcher};
ghost use Rattle.ac_c.specs.Opens.{AnswersOpened, IsOpenStatus, IsOpened};

use crate::handle::Handle;
use crate::handle::held::Held;
use crate::options::Options;
use crate::status::{ARGUMENTS, LIMIT, MEMORY, OK};
use crate::texts::{are_ends, passes_limit, texts_in};
use ac_search::{AhoCorasick, BuildError};
use std::alloc::Global;

/// The version of this library: 10,000 for each major one, 100 for each minor one, and 1 for each patch.
const VERSION: u32 = 100;

/// Returns the version of this library.
#[unsafe(no_mangle)]
pub extern "C" fn ac_raw_version() -> u32
    ensures { result ≡ 100 }
{
    VERSION
}

/// Builds a searcher by these options over the patterns that stand in `bytes`, each up to its end, and leaves it in `out`.
/// What `out` held before is freed.
///
/// Returns `OK`; or `ARGUMENTS`, `MEMORY` or `LIMIT`: then `out` is as it was. Where there are too many patterns, or one is too long,
/// that is `LIMIT`, whatever memory there is.
#[unsafe(no_mangle)]
pub extern "C" fn ac_raw_open(
    alloc: Global,
    options: &Options,
    bytes: &[u8],
    ends: &[usize],
    out: &mut Handle,
) -> i32
    ensures status { IsOpenStatus options.now bytes.now ends.now result }
    ensures opened { result ≡ OK → HoldsSearcher out.new.held (IsOpened options.now bytes.now ends.now) }
    ensures otherwise { result ≢ OK → out.new ≡ out.old }
{
    let searcher = match opened(alloc, options, bytes, ends) {
        Ok(searcher) => searcher,
        Err(status) => return status,
    };
    match Handle::new(alloc, Held::of(searcher)) {
        Ok(handle) => {
            *out = handle;
            OK
        }
        Err(_) => MEMORY,
    }
}

/// Frees the searcher that a handle holds, if it holds one.
#[unsafe(no_mangle)]
pub extern "C" fn ac_raw_close(handle: Handle) {
    drop(handle);
}

/// Builds a searcher by these options over these patterns, or returns the status that says why there is none.
fn opened(
    alloc: Global,
    options: &Options,
    bytes: &[u8],
    ends: &[usize],
) -> Result<AhoCorasick, i32>
    ensures { AnswersOpened options.now bytes.now ends.now result }
{
    let Some(builder) = options.builder() else {
        return Err(ARGUMENTS);
    };
    if !are_ends(ends, bytes.len()) {
        return Err(ARGUMENTS);
    }
    if passes_limit(bytes, ends) {
        return Err(LIMIT);
    }
    let Ok(patterns) = texts_in(alloc, bytes, ends) else {
        return Err(MEMORY);
    };
    match builder.build(alloc, &patterns) {
        Ok(searcher) => Ok(searcher),
        Err(BuildError::Memory) => Err(MEMORY),
        Err(_) => Err(LIMIT),
    }
}
