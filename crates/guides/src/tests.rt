// The straight guide on examples: each refusal, the bounds, and a guide that is filled to its capacity.
use crate::answer::*;
use crate::ends::*;
use crate::guide::Guide;
use crate::line::*;
use std::test::Fail;

#[test]
fn line_is_cleared_for_two_to_sixty_four_places(rt: HostRuntime) {
    let mut line = Line::new();
    assert_eq!(rt; Line::CAPACITY, 64);
    assert_eq!(rt; line.clear(1), Err(GuideRefusal::SmallGuide));
    assert_eq!(rt; line.clear(65), Err(GuideRefusal::SmallGuide));
    assert_eq!(rt; line.clear(2), Ok(()));
    assert_eq!(rt; line.clear(64), Ok(()));
}

#[test]
fn line_leads_nowhere(rt: HostRuntime) {
    let mut line = Line::new();
    assert_eq!(rt; line.start(), LOW);
    assert_eq!(rt; line.beside(HIGH, Side::Lower), Beside::End);
    assert_eq!(rt; line.beside(2, Side::Higher), Beside::Absent);
    assert_eq!(rt; line.mend(), Mended::Nothing);
}

#[test]
fn line_attaches_between_neighbours_only(rt: HostRuntime) -> Result<(), Fail> {
    let mut line = Line::new();
    line.clear(5)?;
    line.attach(LOW, 3, HIGH)?;
    line.attach(3, 2, HIGH)?;
    assert_eq!(rt; line.attach(LOW, 3, 2), Err(GuideRefusal::BadSpot));
    assert_eq!(rt; line.attach(LOW, 5, 3), Err(GuideRefusal::BadSpot));
    assert_eq!(rt; line.attach(LOW, 4, 2), Err(GuideRefusal::BadSpot));
    assert_eq!(rt; line.attach(3, 4, LOW), Err(GuideRefusal::BadSpot));
    assert_eq!(rt; line.attach(3, 4, 2), Ok(()));
    assert_eq!(rt; line.beside(4, Side::Higher), Beside::End);
    Ok(())
}

#[test]
fn line_detaches_what_stands_between_low_and_high(rt: HostRuntime) -> Result<(), Fail> {
    let mut line = Line::new();
    line.clear(4)?;
    line.attach(LOW, 2, HIGH)?;
    line.attach(2, 3, HIGH)?;
    assert_eq!(rt; line.detach(LOW), Err(GuideRefusal::NotThere));
    assert_eq!(rt; line.detach(HIGH), Err(GuideRefusal::NotThere));
    assert_eq!(rt; line.detach(2), Ok(()));
    assert_eq!(rt; line.detach(2), Err(GuideRefusal::NotThere));
    assert_eq!(rt; line.beside(2, Side::Lower), Beside::Absent);
    assert_eq!(rt; line.attach(LOW, 2, 3), Ok(()));
    Ok(())
}

#[test]
fn line_holds_all_its_places(rt: HostRuntime) -> Result<(), Fail> {
    let mut line = Line::new();
    line.clear(64)?;
    let mut last: Number = LOW;
    for place in 2..64 {
        line.attach(last, place, HIGH)?;
        last = place;
    }
    assert_eq!(rt; line.attach(last, 64, HIGH), Err(GuideRefusal::BadSpot));
    assert_eq!(rt; line.beside(63, Side::Lower), Beside::End);
    Ok(())
}

#[test]
fn refusals_have_their_numbers_and_names(rt: HostRuntime) {
    assert_eq!(rt; GuideRefusal::SmallGuide.number(), 2);
    assert_eq!(rt; GuideRefusal::BadSpot.number(), 9);
    assert_eq!(rt; GuideRefusal::NotThere.number(), 10);
    assert_eq!(rt; GuideRefusal::BadSpot.name(), "BAD SPOT");
}
