//! Each request refused once: see `scripts/check_refused`.
use super::replaced::try_each_closure;
use super::{Call, Room, Trial, try_each};
use std::alloc::Global;
use std::test::Fail;

/// Makes a call, and once more where it had no room.
pub(super) fn room_at_last(alloc: Global, call: Call) -> Room {
    match call.room(alloc, alloc) {
        Room::Lacking => call.room(alloc, alloc),
        room => room,
    }
}

/// At most one request is refused, so each call has room the second time at the latest.
#[test]
fn each_call_has_room_at_last(rt: HostRuntime) -> Result<(), Fail> {
    try_each(rt.alloc(), Trial::Again)?;
    try_each_closure(rt.alloc(), Trial::Again)
}
