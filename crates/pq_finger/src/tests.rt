ghost use Rattle.std.specs.Prelude.{◌≡◌, length};
ghost use Rattle.std.specs.List.Sorted.{IsStrictlyIncreasing};
ghost use Rattle.pq_limits.specs.Limits.{IsOmega};

use crate::{Cut, Fingers, PlaceList};
use pq_list::OutOfMemory;
use std::process::Abort;
use std::test::Fail;

fn first_are(
    rt: &(impl Abort + AllocGlobal),
    live: u64,
    omega: u32,
    want: &[u64],
) -> Result<(), OutOfMemory>
    requires { IsOmega omega }
{
    let fingers = Fingers::first(rt.alloc(), live, omega)?;
    assert!(rt; fingers.places() == want, "of {live} and {omega}");
    Ok(())
}

#[test]
fn first_fingers_stand_omega_apart_below_the_end(rt: HostRuntime) -> Result<(), Fail> {
    first_are(&rt, 8, 2, &[0, 2, 4, 6])?;
    first_are(&rt, 9, 4, &[0, 4, 8])?;
    first_are(&rt, 1, 1024, &[0])?;
    first_are(&rt, 0, 2, &[])?;
    Ok(())
}

#[test]
fn the_first_is_selected_and_each_that_is_far_enough(rt: HostRuntime) -> Result<(), Fail> {
    let fingers = Fingers::first(rt.alloc(), 8, 2)?;
    let ranks = [0, 2, 4, 6];
    assert_eq!(rt; fingers.places().len(), 4);
    assert!(rt; ranks[0] < ranks[1] && ranks[1] < ranks[2] && ranks[2] < ranks[3]);
    let selected = fingers.select(rt.alloc(), &ranks, 2)?;
    assert!(rt; selected.as_slice() == [0u64, 2].as_slice());
    assert_eq!(rt; selected.room(), 2);
    let list = PlaceList::with_room(rt.alloc(), 2)?;
    assert_eq!(rt; list.room(), 2);
    Ok(())
}

const EMPTY: Cut = Cut {
    finger: 0,
    improved: false,
    from: 3,
    to: 3,
    at_start: true,
    at_end: true,
};

const IMPROVED: Cut = Cut {
    finger: 0,
    improved: true,
    from: 0,
    to: 2,
    at_start: true,
    at_end: false,
};

const UNCHANGED: Cut = Cut {
    finger: 2,
    improved: false,
    from: 2,
    to: 6,
    at_start: false,
    at_end: false,
};

#[test]
fn a_round_settles_and_moves_its_fingers(rt: HostRuntime) -> Result<(), Fail> {
    let fingers = Fingers::first(rt.alloc(), 8, 2)?;
    assert!(rt; fingers.places() == [0u64, 2, 4, 6].as_slice());
    let settled = fingers.settle(rt.alloc(), &[IMPROVED, UNCHANGED])?;
    assert!(rt; settled.places() == [2u64, 6].as_slice());
    let moved = settled.moved(&[7, 7]);
    assert!(rt; moved.places() == [7u64].as_slice());
    Ok(())
}

#[test]
fn an_empty_segment_at_the_end_leaves_no_finger(rt: HostRuntime) -> Result<(), Fail> {
    let fingers = Fingers::first(rt.alloc(), 1, 2)?;
    assert!(rt; fingers.places() == [0u64].as_slice());
    let end = fingers.moved(&[3]);
    assert!(rt; end.places() == [3u64].as_slice());
    let settled = end.settle(rt.alloc(), &[EMPTY])?;
    assert!(rt; settled.places().is_empty());
    Ok(())
}
