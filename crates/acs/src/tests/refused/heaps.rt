//! Calls in heaps of rising size, which refuse each request that they have no room for.
use super::{Call, Room, Trial, try_each};
use linked_list_allocator::LocalHeap;
use std::alloc::{AllocError, Global};
use std::test::Fail;

/// What a heap gives out is a multiple of so many bytes.
const STEP: usize = 16;

/// The next heap is greater by a part like this, or by a step.
const PART: usize = 64;

/// Up to how many heaps are tried: the last one has some megabytes.
const HEAPS: usize = 700;

/// Returns what a call comes to in a heap of a size, to which it gives all memory back.
fn room_in_heap(alloc: Global, size: usize, call: Call) -> Room {
    let Ok(heap) = LocalHeap::new(alloc, size) else {
        return Room::Other("no heap");
    };
    let room = call.room(alloc, &heap);
    if heap.used() == 0 {
        room
    } else {
        Room::Other("memory is kept")
    }
}

/// Returns the size of the first of greater and greater heaps in which a call lacks no memory, and what it comes to there.
pub(super) fn least_room(alloc: Global, call: Call) -> (usize, Room) {
    let mut size = STEP;
    for _ in 0..HEAPS {
        match room_in_heap(alloc, size, call) {
            Room::Lacking => size = size.saturating_add(STEP.max(size / PART)),
            room => return (size, room),
        }
    }
    (size, Room::Lacking)
}

/// Tries a call in heaps: it wants more than the least one.
pub(super) fn room_in_some_heap(alloc: Global, call: Call) -> Room {
    match least_room(alloc, call) {
        (STEP, Room::Enough) => Room::Other("other memory is taken"),
        (_, room) => room,
    }
}

/// A call wants memory up to the size at which it has room, and gives all back.
#[test]
fn each_call_has_room_in_some_heap(rt: HostRuntime) -> Result<(), Fail> {
    try_each(rt.alloc(), Trial::Heaps)
}

/// A heap in which each searcher over the words has room.
pub(super) const AMPLE: usize = 1 << 16;

/// Takes all that is left of a heap.
pub(super) fn filled<'h>(
    alloc: Global,
    heap: &'h LocalHeap,
) -> Result<Vec<Vec<u8, &'h LocalHeap>>, AllocError> {
    let mut pieces = Vec::new(alloc);
    for _ in 0..AMPLE / STEP {
        if let Ok(piece) = Vec::with_capacity(heap, STEP) {
            pieces.push(piece)?;
        }
    }
    Ok(pieces)
}
