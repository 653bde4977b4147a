//! The bytes that a contract sees.
use crate::tests::same;
use ac_util::history::History;
use std::test::Fail;

#[test]
fn histories_take_no_bytes(rt: HostRuntime) -> Result<(), Fail> {
    same(&rt, size_of::<History>(), 0);
    Ok(())
}

#[test]
fn bytes_come_behind_others(rt: HostRuntime) -> Result<(), Fail> {
    let first = History::with(&History::empty(), b"ab");
    let second = History::with(&first, b"");
    let third = History::with(&second, b"c");
    same(&rt, size_of_val(&third), 0);
    Ok(())
}
