//! Classes of bytes.
use crate::tests::same;
use ac_util::alphabet::ByteClasses;
use ac_util::error::BuildError;
use ac_util::patterns::Patterns;
use std::alloc::Global;
use std::test::Fail;

const NESTED: &[&[u8]] = &[b"b", b"abc", b"abcd"];

/// Patterns, whether case is ignored, and how many classes there are, the stride and its exponent.
type Count = (&'static [&'static [u8]], bool, (usize, usize, u32));

const COUNTS: [Count; 5] = [
    (&[], false, (1, 1, 0)),
    (&[b""], false, (1, 1, 0)),
    (NESTED, false, (6, 8, 3)),
    (&[b"ab"], false, (4, 4, 2)),
    (&[b"ab"], true, (7, 8, 3)),
];

/// Returns how many classes these patterns have, the stride and its exponent.
fn counted(
    alloc: Global,
    patterns: &[&[u8]],
    ignores_case: bool,
) -> Result<(usize, usize, u32), BuildError> {
    let stored = Patterns::new(alloc, patterns)?;
    let classes = ByteClasses::of(&stored, ignores_case);
    Ok((classes.alphabet_len(), classes.stride(), classes.stride2()))
}

#[test]
fn classes_are_counted(rt: HostRuntime) -> Result<(), Fail> {
    for (patterns, ignores_case, wanted) in COUNTS {
        same(&rt, counted(rt.alloc(), patterns, ignores_case)?, wanted);
    }
    Ok(())
}

/// Patterns of `a` and each byte from 80 on, without the last one and with it.
#[test]
fn many_bytes_have_many_classes(rt: HostRuntime) -> Result<(), Fail> {
    let mut text = [b'a'; 256];
    for index in 0..0x80u8 {
        text[2 * index as usize + 1] = 0x80 + index;
    }
    for count in [127, 128] {
        let patterns: Vec<&[u8]> = text.chunks(2).take(count).collect(rt.alloc())?;
        same(&rt, counted(rt.alloc(), &patterns, false)?, (131, 256, 8));
    }
    Ok(())
}

#[test]
fn bytes_have_their_classes(rt: HostRuntime) -> Result<(), Fail> {
    let stored = Patterns::new(rt.alloc(), NESTED)?;
    let classes = ByteClasses::of(&stored, false);
    for (byte, class) in [
        (0, 0),
        (b'`', 0),
        (b'a', 1),
        (b'b', 2),
        (b'c', 3),
        (b'd', 4),
        (b'e', 5),
        (b'f', 5),
        (255, 5),
    ] {
        same(&rt, classes.get(byte), class);
    }
    Ok(())
}

#[test]
fn each_byte_is_a_class_of_its_own(rt: HostRuntime) {
    let classes = ByteClasses::singletons();
    let sizes = (classes.alphabet_len(), classes.stride(), classes.stride2());
    same(&rt, sizes, (256, 256, 8));
    for byte in 0..=255 {
        same(&rt, classes.get(byte), byte);
    }
}
