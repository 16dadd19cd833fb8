// The even tree on examples: refusals as the plain tree's, and a tree that is mended until nothing is needed.
use crate::balanced::*;
use guides::{Beside, Guide, GuideRefusal, HIGH, LOW, Mended, Number, Side};
use std::test::Fail;

// Mends until nothing is needed, at most 5,000 times.
fn settle(even: &mut Even) -> bool {
    for _ in 0..5000 {
        if even.mend() == Mended::Nothing {
            return true;
        }
    }
    false
}

#[test]
fn even_is_cleared_for_two_to_1024_places(rt: HostRuntime) {
    let mut even = Even::new();
    assert_eq!(rt; Even::CAPACITY, 1024);
    assert_eq!(rt; even.clear(1), Err(GuideRefusal::SmallGuide));
    assert_eq!(rt; even.clear(1025), Err(GuideRefusal::SmallGuide));
    assert_eq!(rt; even.clear(1024), Ok(()));
    assert_eq!(rt; even.start(), HIGH);
    assert_eq!(rt; even.mend(), Mended::Nothing);
}

#[test]
fn even_makes_a_row_of_seven_even(rt: HostRuntime) -> Result<(), Fail> {
    let mut even = Even::new();
    even.clear(9)?;
    let mut last: Number = LOW;
    for place in 2..9 {
        even.attach(last, place, HIGH)?;
        assert!(rt; settle(&mut even));
        last = place;
    }
    assert_eq!(rt; even.beside(HIGH, Side::Lower), Beside::Stands(4));
    assert_eq!(rt; even.beside(4, Side::Lower), Beside::Stands(3));
    assert_eq!(rt; even.beside(4, Side::Higher), Beside::Stands(6));
    assert_eq!(rt; even.beside(6, Side::Higher), Beside::Stands(7));
    Ok(())
}

#[test]
fn even_settles_after_every_change(rt: HostRuntime) -> Result<(), Fail> {
    let mut even = Even::new();
    even.clear(40)?;
    for place in 2..40 {
        even.attach(LOW, place, if place == 2 { HIGH } else { place - 1 })?;
    }
    assert!(rt; settle(&mut even));
    for place in 10..30 {
        even.detach(place)?;
        assert!(rt; settle(&mut even));
    }
    assert_eq!(rt; even.detach(10), Err(GuideRefusal::NotThere));
    Ok(())
}
