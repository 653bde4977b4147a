//! Walks that no row of bindings/rows.txt can say.
use super::engines::{ALL, EACH, builder_of, engines};
use super::{same_by, walk_of};
use crate::Input;
use crate::StartKind::Unanchored;
use std::test::Fail;

#[test]
fn nothing_is_found_in_a_span_that_starts_past_its_end(rt: HostRuntime) -> Result<(), Fail> {
    let input = Input::new(b"abc").range(4..3);
    for engine in &engines(rt.alloc(), ALL)? {
        for &kind in EACH {
            let builder = builder_of(engine, kind, Unanchored);
            let searcher = builder.build(rt.alloc(), &[b""])?;
            let found = (searcher.try_find(input)?, searcher.is_match(input));
            same_by(&rt, found, (None, false), &builder);
            let walk = walk_of(rt.alloc(), &searcher, input)?;
            same_by(&rt, walk.is_empty(), true, &builder);
        }
    }
    Ok(())
}
