ghost use Rattle.std.specs.Prelude.{◌≡◌, ◌+◌, ◌≤◌, length, IfOk, vec_len};
ghost use Rattle.pq_array.specs.Cells.{live, rank, IsLiveRun};

use super::*;
use pq_gate::{Gate, GateList};
use std::alloc::{AllocError, Global};
use std::process::Abort;
use std::test::Fail;

/// A gate that tells its number.
fn numbered(number: u32) -> Gate {
    Gate::H { wire: number }
}

/// Gates that are all different.
fn gates(alloc: Global, count: u32) -> Result<Vec<Gate>, AllocError>
    ensures { IfOk result (λ made. vec_len made ≡ count) }
{
    (0..count).map(numbered).collect(alloc)
}

/// The places of `count` live gates from the number `first` on.
fn run_of(alloc: Global, array: &GateArray, first: u32, count: u32) -> Result<Vec<u64>, AllocError>
    requires { first + count ≤ length (live array.now) }
    ensures run { IfOk result (λ places. IsLiveRun array.now places.items) }
    ensures len { IfOk result (λ places. vec_len places ≡ count) }
{
    let mut places = Vec::new(alloc);
    for number in 0..count {
        let place = array.select(u64::from(first) + u64::from(number)).unwrap();
        places.push(place)?;
    }
    Ok(places)
}

/// Compares the live gates of the array, by number and by place, with a plain list.
fn holds(rt: &impl Abort, array: &GateArray, list: &[Gate]) {
    assert_eq!(rt; array.live(), list.len() as u64);
    for (number, gate) in list.iter().enumerate() {
        let place = array.select(number as u64).expect(rt, "a live gate");
        assert_eq!(rt; array.gate_at(place), Some(*gate), "{number}");
        assert!(rt; place <= array.cells());
        assert_eq!(rt; array.rank(place), number as u64, "{number}");
        assert_eq!(rt; array.next_live(place), Some(place), "{number}");
    }
    assert_eq!(rt; array.select(list.len() as u64), None);
}

/// Replaces `count` live gates from the number `first` on, in the array and in a plain list.
fn replace_in_both(
    rt: &(impl Abort + AllocGlobal),
    array: &mut GateArray,
    list: &mut Vec<Gate>,
    run: (u32, u32),
    output: &[Gate],
) -> Result<(), AllocError> {
    let (first, count) = run;
    assert!(rt; u64::from(first) + u64::from(count) <= array.live());
    assert!(rt; output.len() <= count as usize);
    let places = run_of(rt.alloc(), array, first, count)?;
    array.replace(&places, output);

    let end = first as usize + count as usize;
    assert!(rt; end <= list.len());
    let mut after = Vec::new(rt.alloc());
    after.extend_from_slice(&list[..first as usize])?;
    after.extend_from_slice(output)?;
    after.extend_from_slice(&list[end..])?;
    *list = after;
    holds(rt, array, list);
    Ok(())
}

#[test]
fn three_of_five_gates_are_replaced_by_one(rt: HostRuntime) -> Result<(), Fail> {
    let mut array = GateArray::open(rt.alloc(), &gates(rt.alloc(), 5)?)?;
    let places = run_of(rt.alloc(), &array, 1, 3)?;
    assert!(rt; places.as_slice() == [1u64, 2, 3].as_slice());
    array.replace(&places, &[numbered(9)]);

    assert_eq!(rt; array.cells(), 5);
    assert_eq!(rt; array.live(), 3);
    assert_eq!(rt; array.gate_at(1), Some(numbered(9)));
    assert_eq!(rt; array.gate_at(2), None);
    assert_eq!(rt; array.gate_at(4), Some(numbered(4)));
    assert_eq!(rt; array.gate_at(5), None);
    assert_eq!(rt; array.rank(4), 2);
    assert_eq!(rt; array.rank(5), 3);
    assert_eq!(rt; array.rank_from(0, 0, 4), 2);
    assert!(rt; array.is_live(1) && !array.is_live(2) && !array.is_live(5));
    assert_eq!(rt; array.select(2), Some(4));
    assert_eq!(rt; array.select(3), None);
    assert_eq!(rt; array.next_live(2), Some(4));
    assert_eq!(rt; array.next_live(5), None);
    assert_eq!(rt; array.back(4, 1), 1);
    assert_eq!(rt; array.back(5, 3), 0);

    array.compact();
    assert_eq!(rt; array.cells(), 3);
    holds(&rt, &array, &[numbered(0), numbered(9), numbered(4)]);
    assert_eq!(rt; array.gate_at(1), Some(numbered(9)));
    words_are(&rt, array, &[0, 3, 2, 1, 1, 1, 1, 0]);
    Ok(())
}

#[test]
fn gates_are_moved_into_an_array_and_out_of_it(rt: HostRuntime) -> Result<(), Fail> {
    let mut array = GateArray::of(rt.alloc(), GateList::of(gates(rt.alloc(), 5)?))?;
    assert!(rt; array.live() == 5);
    let places = run_of(rt.alloc(), &array, 1, 3)?;
    array.replace(&places, &[numbered(9)]);
    assert!(rt; array.cells() == 5);
    let left = array.into_gates();
    assert!(rt; left.as_slice() == [numbered(0), numbered(9), numbered(4)].as_slice());
    Ok(())
}

/// Compares the words of the tree with these.
fn words_are(rt: &impl Abort, array: GateArray, want: &[u64]) {
    let (_cells, words) = array.split_words();
    assert!(rt; words.as_slice() == want);
}

#[test]
fn the_words_count_the_live_gates_below_each_node(rt: HostRuntime) -> Result<(), Fail> {
    let five = GateArray::open(rt.alloc(), &gates(rt.alloc(), 5)?)?;
    words_are(&rt, five, &[0, 5, 4, 1, 2, 2, 1, 0, 1, 1, 1, 1, 1, 0, 0, 0]);

    let mut array = GateArray::open(rt.alloc(), &gates(rt.alloc(), 5)?)?;
    let places = run_of(rt.alloc(), &array, 1, 3)?;
    array.replace(&places, &[numbered(9)]);
    words_are(
        &rt,
        array,
        &[0, 3, 2, 1, 2, 0, 1, 0, 1, 1, 0, 0, 1, 0, 0, 0],
    );
    Ok(())
}

#[test]
fn an_array_comes_back_from_its_cells_and_words(rt: HostRuntime) -> Result<(), Fail> {
    let (cells, words) = GateArray::open(rt.alloc(), &gates(rt.alloc(), 3)?)?.split_words();
    assert_eq!(rt; cells.gate_at(2), Some(numbered(2)));
    assert_eq!(rt; cells.gate_at(3), None);
    let mut words = words.into_vec();
    words[0] = 5;
    let array = GateArray::rejoin(cells, WordList::of(words));
    holds(&rt, &array, &gates(rt.alloc(), 3)?);
    words_are(&rt, array, &[0, 3, 2, 1, 1, 1, 1, 0]);
    Ok(())
}

#[test]
fn cells_alone_take_a_replacement(rt: HostRuntime) -> Result<(), Fail> {
    let array = GateArray::open(rt.alloc(), &gates(rt.alloc(), 5)?)?;
    let places = run_of(rt.alloc(), &array, 1, 3)?;
    let (mut cells, _words) = array.split_words();
    cells.replace(&places, &[numbered(9)]);
    for (place, want) in [Some(0), Some(9), None, None, Some(4), None]
        .iter()
        .enumerate()
    {
        assert_eq!(rt; cells.gate_at(place as u64), want.map(numbered));
    }
    Ok(())
}

#[test]
fn an_array_may_have_no_gate_or_one(rt: HostRuntime) -> Result<(), Fail> {
    let mut none = GateArray::open(rt.alloc(), &[])?;
    none.replace(&[], &[]);
    holds(&rt, &none, &[]);
    assert_eq!(rt; none.cells(), 0);
    assert_eq!(rt; none.rank(0), 0);
    assert_eq!(rt; none.next_live(0), None);

    let mut list = gates(rt.alloc(), 1)?;
    let mut one = GateArray::open(rt.alloc(), &list)?;
    holds(&rt, &one, &list);
    assert_eq!(rt; one.cells(), 1);
    assert_eq!(rt; one.rank(1), 1);
    replace_in_both(&rt, &mut one, &mut list, (0, 1), &[])?;
    assert_eq!(rt; one.live(), 0);
    assert_eq!(rt; one.gate_at(0), None);
    Ok(())
}

#[test]
fn replaces_are_those_of_a_plain_list(rt: HostRuntime) -> Result<(), Fail> {
    let mut list = gates(rt.alloc(), 100)?;
    let mut array = GateArray::open(rt.alloc(), &list)?;
    holds(&rt, &array, &list);
    let output = [numbered(200), numbered(201), numbered(202)];
    let runs = [
        (10, 5, 2),
        (0, 3, 0),
        (50, 3, 3),
        (20, 40, 1),
        (0, 1, 1),
        (48, 2, 0),
        (7, 0, 0),
    ];
    for (first, count, len) in runs {
        let len: usize = len;
        assert!(rt; len <= 3);
        replace_in_both(&rt, &mut array, &mut list, (first, count), &output[..len])?;
    }
    assert_eq!(rt; array.cells(), 100);
    assert_eq!(rt; array.live(), 53);
    Ok(())
}

#[test]
fn rank_and_select_are_inverses_where_each_third_gate_is_out(rt: HostRuntime) -> Result<(), Fail> {
    let mut list = gates(rt.alloc(), 30)?;
    let mut array = GateArray::open(rt.alloc(), &list)?;
    for third in (0..10).rev() {
        replace_in_both(&rt, &mut array, &mut list, (3 * third, 1), &[])?;
    }
    assert_eq!(rt; array.cells(), 30);
    for place in 0..30 {
        assert_eq!(rt; array.gate_at(place).is_none(), place % 3 == 0);
        assert_eq!(rt; array.rank(place), place - (place + 2) / 3);
        assert_eq!(rt; array.select(array.rank(place)), array.next_live(place));
    }
    Ok(())
}

#[test]
fn a_list_of_words_has_the_room_that_was_asked_for(rt: HostRuntime) -> Result<(), Fail> {
    let mut words = WordList::with_room(rt.alloc(), 2)?;
    assert_eq!(rt; words.room(), 2);
    assert!(rt; words.as_slice().is_empty());
    words.push_kept(7);
    words.push_kept(9);
    assert!(rt; words.as_slice() == [7u64, 9].as_slice());
    Ok(())
}
