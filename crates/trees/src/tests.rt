// The plain tree on examples: each refusal, the bounds, where a place hangs, and what takes the spot of one that goes.
use crate::tree::*;
use guides::{Beside, Guide, GuideRefusal, HIGH, LOW, Mended, Number, Side};
use std::test::Fail;

#[test]
fn tree_is_cleared_for_two_to_1024_places(rt: HostRuntime) {
    let mut tree = Tree::new();
    assert_eq!(rt; Tree::CAPACITY, 1024);
    assert_eq!(rt; tree.clear(1), Err(GuideRefusal::SmallGuide));
    assert_eq!(rt; tree.clear(1025), Err(GuideRefusal::SmallGuide));
    assert_eq!(rt; tree.clear(2), Ok(()));
    assert_eq!(rt; tree.clear(1024), Ok(()));
    assert_eq!(rt; tree.start(), HIGH);
    assert_eq!(rt; tree.mend(), Mended::Nothing);
}

#[test]
fn tree_hangs_right_of_the_lower_or_left_of_the_upper(rt: HostRuntime) -> Result<(), Fail> {
    let mut tree = Tree::new();
    tree.clear(6)?;
    assert_eq!(rt; tree.attach(LOW, 3, HIGH), Ok(()));
    assert_eq!(rt; tree.attach(3, 4, HIGH), Ok(()));
    assert_eq!(rt; tree.attach(3, 5, 4), Ok(()));
    assert_eq!(rt; tree.beside(HIGH, Side::Lower), Beside::Stands(3));
    assert_eq!(rt; tree.beside(3, Side::Higher), Beside::Stands(4));
    assert_eq!(rt; tree.beside(4, Side::Lower), Beside::Stands(5));
    assert_eq!(rt; tree.beside(5, Side::Lower), Beside::End);
    assert_eq!(rt; tree.beside(LOW, Side::Higher), Beside::End);
    assert_eq!(rt; tree.beside(2, Side::Lower), Beside::Absent);
    assert_eq!(rt; tree.beside(60000, Side::Lower), Beside::Absent);
    Ok(())
}

#[test]
fn tree_refuses_bad_spots(rt: HostRuntime) -> Result<(), Fail> {
    let mut tree = Tree::new();
    tree.clear(4)?;
    tree.attach(LOW, 2, HIGH)?;
    assert_eq!(rt; tree.attach(LOW, 2, HIGH), Err(GuideRefusal::BadSpot));
    assert_eq!(rt; tree.attach(LOW, 3, HIGH), Err(GuideRefusal::BadSpot));
    assert_eq!(rt; tree.attach(LOW, 4, 2), Err(GuideRefusal::BadSpot));
    assert_eq!(rt; tree.attach(HIGH, 3, LOW), Err(GuideRefusal::BadSpot));
    assert_eq!(rt; tree.attach(3, 3, LOW), Err(GuideRefusal::BadSpot));
    assert_eq!(rt; tree.attach(LOW, 3, 2), Ok(()));
    Ok(())
}

#[test]
fn tree_puts_the_successor_in_the_place_of_one_with_two_children(
    rt: HostRuntime,
) -> Result<(), Fail> {
    let mut tree = Tree::new();
    tree.clear(8)?;
    tree.attach(LOW, 4, HIGH)?;
    tree.attach(LOW, 2, 4)?;
    tree.attach(4, 7, HIGH)?;
    tree.attach(4, 5, 7)?;
    tree.attach(5, 6, 7)?;
    assert_eq!(rt; tree.detach(4), Ok(()));
    assert_eq!(rt; tree.beside(HIGH, Side::Lower), Beside::Stands(5));
    assert_eq!(rt; tree.beside(5, Side::Lower), Beside::Stands(2));
    assert_eq!(rt; tree.beside(5, Side::Higher), Beside::Stands(7));
    assert_eq!(rt; tree.beside(7, Side::Lower), Beside::Stands(6));
    assert_eq!(rt; tree.detach(7), Ok(()));
    assert_eq!(rt; tree.beside(5, Side::Higher), Beside::Stands(6));
    assert_eq!(rt; tree.detach(5), Ok(()));
    assert_eq!(rt; tree.beside(6, Side::Lower), Beside::Stands(2));
    assert_eq!(rt; tree.beside(6, Side::Higher), Beside::End);
    assert_eq!(rt; tree.detach(5), Err(GuideRefusal::NotThere));
    assert_eq!(rt; tree.detach(LOW), Err(GuideRefusal::NotThere));
    assert_eq!(rt; tree.detach(HIGH), Err(GuideRefusal::NotThere));
    Ok(())
}

#[test]
fn tree_holds_all_its_places(rt: HostRuntime) -> Result<(), Fail> {
    let mut tree = Tree::new();
    tree.clear(1024)?;
    let mut last: Number = LOW;
    for place in 2..1024 {
        tree.attach(last, place, HIGH)?;
        last = place;
    }
    assert_eq!(rt; tree.attach(last, 1024, HIGH), Err(GuideRefusal::BadSpot));
    assert_eq!(rt; tree.beside(1022, Side::Higher), Beside::Stands(1023));
    Ok(())
}
