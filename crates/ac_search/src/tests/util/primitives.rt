//! Numbers of patterns and states.
use crate::tests::same;
use ac_util::primitives::{PatternID, Plain, SmallIndex, StateID, TooLarge};
use std::cmp::Ordering;
use std::cmp::Ordering::{Equal, Greater, Less};
use std::hash::{DefaultHasher, Hash, Hasher};
use std::test::Fail;

/// Returns what a hasher makes of a value.
fn hash_of<T: Hash>(value: &T) -> u64 {
    let mut hasher = DefaultHasher::new();
    value.hash(&mut hasher);
    hasher.finish()
}

/// Returns the order of two numbers, the same by `partial_cmp`, and whether they and their hashes are equal.
fn compared(left: StateID, right: StateID) -> (Ordering, Option<Ordering>, bool, bool) {
    (
        left.cmp(&right),
        left.partial_cmp(&right),
        left == right,
        hash_of(&left) == hash_of(&right),
    )
}

#[test]
fn numbers_end_at_the_greatest(rt: HostRuntime) {
    let greatest = [PatternID::MAX, StateID::MAX, SmallIndex::<Plain>::MAX];
    same(&rt, greatest, [2147483646; 3]);
    let limits = [PatternID::LIMIT, StateID::LIMIT, SmallIndex::<Plain>::LIMIT];
    same(&rt, limits, [2147483647; 3]);
    let made = [
        StateID::new(2147483646),
        StateID::new(2147483647),
        StateID::new(usize::MAX),
    ];
    let wanted = [
        Ok(StateID::must(2147483646)),
        Err(TooLarge {
            attempted: 2147483647,
        }),
        Err(TooLarge {
            attempted: usize::MAX,
        }),
    ];
    same(&rt, made, wanted);
    same(&rt, PatternID::must(2147483646).as_usize(), 2147483646);
}

#[test]
fn numbers_are_given_in_each_size(rt: HostRuntime) -> Result<(), Fail> {
    let greatest = PatternID::must(2147483646);
    same(
        &rt,
        (greatest.as_u32(), greatest.as_u64()),
        (2147483646, 2147483646),
    );
    same(
        &rt,
        (greatest.one_more(), StateID::must(0).one_more()),
        (2147483647, 1),
    );
    let shown = format!(in rt.alloc(); "{:?} {:?}", PatternID::must(3), StateID::must(4))?;
    same(&rt, shown.as_str(), "PatternID(3) StateID(4)");
    let shown = format!(in rt.alloc(); "{:?}", SmallIndex::<Plain>::must(5))?;
    same(&rt, shown.as_str(), "SmallIndex(5)");
    Ok(())
}

#[test]
fn numbers_are_0_by_default(rt: HostRuntime) {
    let plain: SmallIndex = SmallIndex::default();
    same(&rt, plain.as_usize(), 0);
    same(&rt, PatternID::default(), PatternID::must(0));
    same(&rt, StateID::default(), StateID::must(0));
}

#[test]
fn numbers_are_in_order(rt: HostRuntime) {
    let (low, next, greatest) = (
        StateID::must(255),
        StateID::must(256),
        StateID::must(2147483646),
    );
    same(&rt, compared(low, low), (Equal, Some(Equal), true, true));
    same(&rt, compared(low, next), (Less, Some(Less), false, false));
    same(
        &rt,
        compared(greatest, low),
        (Greater, Some(Greater), false, false),
    );
    assert!(rt; low < next);
}
