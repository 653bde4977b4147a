//! Searches of streams, and replacement in them.
use ac_search::{AhoCorasick, Bytes, Match, StreamError, WriteError, Written, write_all};
use std::alloc::Global;
use std::test::Fail;

#[test]
fn streams_are_searched(rt: HostRuntime) -> Result<(), Fail> {
    let alloc = rt.alloc();
    let searcher = AhoCorasick::new(alloc, &[b"append", b"appendage", b"app"])?;
    let mut ends = Vec::new(alloc);
    for found in searcher.stream_find_iter(alloc, Bytes::new(b"append the app"))? {
        ends.push(found?.end())?; // pattern 2 at 0..3, pattern 2 at 11..14
    }
    are_equal!(rt; ends.as_slice(), [3, 14].as_slice());
    Ok(())
}

#[test]
fn streams_that_may_be_refused_are_searched(rt: HostRuntime) -> Result<(), Fail> {
    let alloc = rt.alloc();
    let searcher = AhoCorasick::new(alloc, &[b"secret".as_slice(), b""])?;
    let reader = Bytes::new(b"a secret");
    let refused = searcher.try_stream_find_iter(alloc, reader).err();
    assert!(rt; matches!(refused, Some(StreamError::Match(_)))); // one pattern is empty
    Ok(())
}

#[test]
fn stream_iterators(rt: HostRuntime) -> Result<(), Fail> {
    let alloc = rt.alloc();
    let searcher = AhoCorasick::new(alloc, &[b"append", b"app"])?;
    let mut matches = searcher.stream_find_iter(alloc, Bytes::new(b"append the app"))?;
    are_equal!(rt; matches.next_read(), None); // nothing was read yet
    are_equal!(rt; matches.next().transpose()?, Some(Match::must(1, 0..3)));
    are_equal!(rt; (matches.kept_len(), matches.buffer_len()), (11, 65_536)); // "end the app" is kept
    are_equal!(rt; matches.next_read(), Some(Match::must(1, 11..14)));
    assert!(rt; matches.next().is_none());
    Ok(())
}

#[test]
fn stream_finders(rt: HostRuntime) -> Result<(), Fail> {
    let alloc = rt.alloc();
    let searcher = AhoCorasick::new(alloc, &[b"append", b"app"])?;
    let mut finder = searcher.try_stream_finder(alloc)?;
    let found = finder.next(&mut Bytes::new(b"append the ap")).transpose()?;
    are_equal!(rt; found, Some(Match::must(1, 0..3)));
    are_equal!(rt; finder.next_read(), None); // "ap" may begin a match
    let found = finder.next(&mut Bytes::new(b"p")).transpose()?;
    are_equal!(rt; found, Some(Match::must(1, 11..14)));
    are_equal!(rt; (finder.kept_len(), finder.buffer_len()), (0, 65_536));
    Ok(())
}

#[test]
fn texts_come_in_pieces(rt: HostRuntime) -> Result<(), Fail> {
    let alloc = rt.alloc();
    let searcher = AhoCorasick::new(alloc, &[b"append", b"app"])?;
    let mut finder = searcher.try_piece_finder()?;
    let mut piece = b"append the ap".as_slice();
    are_equal!(rt; finder.next(&mut piece), Some(Match::must(1, 0..3)));
    are_equal!(rt; piece, b"end the ap".as_slice()); // it is handed over again
    are_equal!(rt; finder.next(&mut piece), None); // "ap" may begin a match
    let mut piece = b"p".as_slice();
    are_equal!(rt; finder.next(&mut piece), Some(Match::must(1, 11..14)));
    finder.end();
    are_equal!(rt; (finder.next(&mut piece), finder.settled()), (None, 14));
    Ok(())
}

#[test]
fn texts_in_pieces_are_replaced(rt: HostRuntime) -> Result<(), Fail> {
    let alloc = rt.alloc();
    let searcher = AhoCorasick::new(alloc, &[b"append", b"app"])?;
    let mut replacer = searcher.try_piece_replacer(alloc, &[b"x", b"yy"])?;
    let (mut piece, mut out) = (b"append the ap".as_slice(), [0; 4]);
    are_equal!(rt; replacer.write(&mut piece, &mut out), 4); // there is room for no more
    are_equal!(rt; out.as_slice(), b"yyen".as_slice());
    are_equal!(rt; replacer.write(&mut piece, &mut out), 3); // the last 5 bytes are kept
    let mut piece = b"p".as_slice();
    are_equal!(rt; replacer.write(&mut piece, &mut out), 4);
    replacer.end();
    are_equal!(rt; replacer.write(&mut piece, &mut out), 1);
    are_equal!(rt; &out[..1], b"y".as_slice()); // all was written
    Ok(())
}

#[test]
fn streams_are_exchanged_by_closures(rt: HostRuntime) -> Result<(), Fail> {
    let alloc = rt.alloc();
    let searcher = AhoCorasick::new(alloc, &[b"fox", b"brown", b"quick"])?;
    let (mut reader, mut writer) = (Bytes::new(b"a fox"), Written::new(alloc));
    let closure = |_: &Match, slice: &[u8], writer: &mut Written<Global>| {
        write_all(writer, slice).map_err(WriteError::into_error)?;
        write_all(writer, b"!").map_err(WriteError::into_error)
    };
    searcher.try_stream_replace_all_with(alloc, &mut reader, &mut writer, closure)?;
    are_equal!(rt; writer.bytes(), b"a fox!".as_slice());
    Ok(())
}
