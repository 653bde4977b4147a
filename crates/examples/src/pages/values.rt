//! Values that need no searcher.
use ac_search::{Anchored, Input, Match, MatchKind, PatternID, Span, TooLarge};

#[test]
fn matches_and_spans(rt: HostRuntime) {
    let m = Match::must(1, 13..18);
    are_equal!(rt; m.pattern(), PatternID::must(1));
    are_equal!(rt; (m.start(), m.end(), m.len()), (13, 18, 5));
    are_equal!(rt; (m.span(), m.range()), (Span::from(13..18), 13..18));
    assert!(rt; !m.is_empty());
    are_equal!(rt; m.offset(10), Match::must(1, 23..28));
    are_equal!(rt; m, Match::new(PatternID::must(1), m.span()));

    let span = Span { start: 3, end: 6 };
    are_equal!(rt; span, Span::from(3..6));
    are_equal!(rt; (span.range(), span.len()), (3..6, 3));
    are_equal!(rt; span.offset(10), Span::from(13..16));
    assert!(rt; span.contains(3) && span.contains(6) && !span.contains(7));
    let empty = Span { start: 3, end: 3 };
    assert!(rt; empty.is_empty() && !empty.contains(3));
}

#[test]
fn inputs_have_options(rt: HostRuntime) {
    let input = Input::new(b"foobar").range(3..6).anchored(Anchored::Yes);
    are_equal!(rt; input.haystack(), b"foobar".as_slice());
    are_equal!(rt; (input.start(), input.end()), (3, 6));
    are_equal!(rt; input.get_span(), Span { start: 3, end: 6 });
    are_equal!(rt; input.get_range(), 3..6);
    are_equal!(rt; input.get_anchored(), Anchored::Yes);
    assert!(rt; !input.get_earliest() && !input.is_done());

    let mut input = Input::new(b"foobar");
    input.set_span(Span { start: 1, end: 5 });
    input.set_start(3);
    input.set_end(6);
    are_equal!(rt; input.get_range(), 3..6);
    input.set_range(6..5);
    assert!(rt; input.is_done());

    let mut input = Input::new(b"foobar");
    input.set_anchored(Anchored::Yes);
    input.set_earliest(true);
    assert!(rt; input.get_anchored().is_anchored() && input.get_earliest());

    let input = Input::of_text("\u{e9}b");
    are_equal!(rt; input.haystack(), b"\xc3\xa9b".as_slice());
    are_equal!(rt; input.get_range(), 0..3);
}

#[test]
fn numbers_and_kinds(rt: HostRuntime) {
    let id = PatternID::must(3);
    are_equal!(rt; (id.as_usize(), id.as_u32(), id.as_u64()), (3, 3, 3));
    are_equal!(rt; id.one_more(), 4);
    are_equal!(rt; PatternID::new(3), Ok(id));
    let attempted = PatternID::LIMIT;
    are_equal!(rt; PatternID::new(attempted), Err(TooLarge { attempted }));

    assert!(rt; MatchKind::LeftmostFirst.is_leftmost());
    assert!(rt; !MatchKind::Standard.is_leftmost());
}
