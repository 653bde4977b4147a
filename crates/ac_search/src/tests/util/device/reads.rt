//! Of readers: in what pieces bytes come, and where a failure or a pause is met.
ghost use Rattle.std.specs.Prelude.{false};

use super::{BROKEN, Outcome, read};
use crate::tests::same;
use ac_util::device::{Bytes, FromRead, Source};
use ac_util::tally::Tally;
use std::io;
use std::io::{ErrorKind, Read};
use std::marker::Model;

/// Gives its bytes one a call, and fails once where `cut` bytes are left.
#[derive(Drop)]
pub(super) struct Drops<'a> {
    left: &'a [u8],
    cut: Option<usize>,
}

impl<'a> Read for Drops<'a> {
    fn read(&mut self, into: &mut [u8]) -> io::Result<usize> {
        if self.cut == Some(self.left.len()) {
            self.cut = None;
            return Err(io::Error::from(ErrorKind::BrokenPipe));
        }
        match (self.left.split_first(), into.first_mut()) {
            (Some((byte, rest)), Some(place)) => {
                *place = *byte;
                self.left = rest;
                Ok(1)
            }
            _ => Ok(0),
        }
    }
}

/// Reports its bytes: gives those up to a pause, then none, and then the others.
#[derive(Drop)]
struct Pauses<'a> {
    bytes: Bytes<'a>,
    until: usize,
    pauses: Tally,
}

impl<'a> Model for Pauses<'a> {
    ghost use Rattle.std.specs.Prelude.{◌+◌};
    ghost use Rattle.ac_util.specs.Device.{Reading};

    ghost Value = { Reading };

    ghost view = { λ p. record p.bytes { empties = p.bytes.empties + p.pauses.number } };
}

impl<'a> Source for Pauses<'a> {
    ghost told = { λ p. p };

    ghost empty_means_end = { false };

    fn read_some(&mut self, into: &mut [u8]) -> io::Result<usize> {
        if self.until == 0 && !into.is_empty() {
            self.until = usize::MAX;
            self.pauses = Tally::after(&self.pauses);
            return Ok(0);
        }
        let room = into.len().min(self.until);
        let n = self.bytes.read_some(&mut into[..room])?;
        self.until -= n;
        Ok(n)
    }
}

/// Reads five times, each time into two places of its own, and returns the answers and the places.
fn five_reads<S: Source>(source: &mut S) -> ([Outcome; 5], [[u8; 2]; 5]) {
    let mut answers = [Ok(0); 5];
    let mut places = [[b'-'; 2]; 5];
    for turn in 0..5 {
        answers[turn] = read(source, &mut places[turn]);
    }
    (answers, places)
}

/// Returns how five reads of `abc` go, of which one fails where `cut` bytes are left.
fn cut_reads(cut: Option<usize>) -> ([Outcome; 5], [[u8; 2]; 5]) {
    five_reads(&mut FromRead::new(Drops { left: b"abc", cut }))
}

#[test]
fn bytes_come_in_order(rt: HostRuntime) {
    let mut source = Bytes::new(b"abcd");
    let (mut two, mut four) = ([b'-'; 2], [b'-'; 4]);
    let answers = [
        read(&mut source, &mut []),
        read(&mut source, &mut two),
        read(&mut source, &mut []),
        read(&mut source, &mut four),
        read(&mut source, &mut four),
        read(&mut source, &mut []),
    ];
    same(&rt, answers, [Ok(0), Ok(2), Ok(0), Ok(2), Ok(0), Ok(0)]);
    same(&rt, (two, four), (*b"ab", *b"cd--"));
}

#[test]
fn a_pause_is_no_end_of_the_bytes(rt: HostRuntime) {
    let mut source = Pauses {
        bytes: Bytes::new(b"abcde"),
        until: 3,
        pauses: Tally::zero(),
    };
    let (answers, places) = five_reads(&mut source);
    same(&rt, answers, [Ok(2), Ok(1), Ok(0), Ok(2), Ok(0)]);
    same(&rt, places, [*b"ab", *b"c-", *b"--", *b"de", *b"--"]);
}

#[test]
fn reads_go_through(rt: HostRuntime) {
    let [a, b, c, none] = [*b"a-", *b"b-", *b"c-", *b"--"];
    let whole = [Ok(1), Ok(1), Ok(1), Ok(0), Ok(0)];
    assert!(rt; cut_reads(None) == (whole, [a, b, c, none, none]));
    let first = [BROKEN, Ok(1), Ok(1), Ok(1), Ok(0)];
    assert!(rt; cut_reads(Some(3)) == (first, [none, a, b, c, none]));
    let between = [Ok(1), Ok(1), BROKEN, Ok(1), Ok(0)];
    assert!(rt; cut_reads(Some(1)) == (between, [a, b, none, c, none]));
    let last = [Ok(1), Ok(1), Ok(1), BROKEN, Ok(0)];
    assert!(rt; cut_reads(Some(0)) == (last, [a, b, c, none, none]));
}

#[test]
fn all_that_has_room_is_read_at_once(rt: HostRuntime) {
    let mut source = FromRead::new(b"abcde".as_slice());
    let (mut first, mut second) = ([b'-'; 4], [b'-'; 4]);
    let answers = [
        read(&mut source, &mut first),
        read(&mut source, &mut second),
        read(&mut source, &mut second),
        read(&mut source, &mut []),
    ];
    same(&rt, answers, [Ok(4), Ok(1), Ok(0), Ok(0)]);
    same(&rt, (first, second), (*b"abcd", *b"e---"));
}
