//! Tapes and counts.
use crate::tests::same;
use ac_util::looks::{Looks, Tape, open};
use ac_util::search::Input;
use std::test::Fail;

#[test]
fn counts_take_no_bytes(rt: HostRuntime) -> Result<(), Fail> {
    same(&rt, size_of::<Looks>(), 0);
    same(&rt, size_of::<Tape<'static>>(), size_of::<&'static [u8]>());
    Ok(())
}

#[test]
fn lends_each_byte(rt: HostRuntime) -> Result<(), Fail> {
    let input = Input::new(b"abc");
    let (mut tape, mut looks) = open(&input);
    same(&rt, tape.read(0, &mut looks), b'a');
    same(&rt, tape.read(2, &mut looks), b'c');
    looks.look();
    Ok(())
}
