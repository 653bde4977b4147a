//! Inputs and their options.
use crate::tests::same;
use ac_util::search::{Anchored, Input, Span};
use std::ops::Range;

/// Returns the options of an input and its span.
fn options(input: &Input) -> (Anchored, bool, Range<usize>) {
    (
        input.get_anchored(),
        input.get_earliest(),
        input.get_range(),
    )
}

#[test]
fn an_input_begins_whole(rt: HostRuntime) {
    let whole = Input::new(b"foobar");
    same(&rt, whole.haystack(), b"foobar".as_slice());
    same(&rt, options(&whole), (Anchored::No, false, 0..6));
    assert!(rt; !whole.is_done());
    let nothing = Input::new(b"");
    same(&rt, nothing.get_range(), 0..0);
    assert!(rt; !nothing.is_done());
    let text = Input::of_text("\u{e9}b");
    same(&rt, text.haystack(), b"\xc3\xa9b".as_slice());
    same(&rt, text.get_range(), 0..3);
}

#[test]
fn spans_are_as_set(rt: HostRuntime) {
    let whole = Input::new(b"foobar");
    let (mut spanned, mut ranged, mut by_ends) = (whole, whole, whole);
    let span = Span { start: 3, end: 4 };
    spanned.set_span(span);
    ranged.set_range(3..4);
    by_ends.set_end(4);
    by_ends.set_start(3);
    let spans = [
        spanned.get_span(),
        ranged.get_span(),
        by_ends.get_span(),
        whole.span(span).get_span(),
        whole.range(3..4).get_span(),
    ];
    same(&rt, spans, [span; 5]);
    same(&rt, (ranged.start(), ranged.end()), (3, 4));
    same(&rt, ranged.haystack(), b"foobar".as_slice());
}

#[test]
fn a_span_past_its_end_is_done(rt: HostRuntime) {
    let whole = Input::new(b"foobar");
    let past = [
        whole.range(3..6).is_done(),
        whole.range(6..6).is_done(),
        whole.range(4..3).is_done(),
        whole.range(7..6).is_done(),
    ];
    same(&rt, past, [false, false, true, true]);
}

#[test]
fn options_are_as_set(rt: HostRuntime) {
    let mut set = Input::new(b"foobar");
    set.set_range(3..6);
    set.set_anchored(Anchored::Yes);
    same(&rt, options(&set), (Anchored::Yes, false, 3..6));
    set.set_earliest(true);
    same(&rt, options(&set), (Anchored::Yes, true, 3..6));
    let early = Input::new(b"foobar").range(3..6).earliest(true);
    same(&rt, options(&early), (Anchored::No, true, 3..6));
    let built = early.anchored(Anchored::Yes);
    same(&rt, options(&built), (Anchored::Yes, true, 3..6));
    let undone = built.anchored(Anchored::No).earliest(false);
    same(&rt, options(&undone), (Anchored::No, false, 3..6));
}
