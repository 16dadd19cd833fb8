// How many places and stations a book may have.
use engine::open;
use guides::{Guide, GuideRefusal, Line};
use orders::Ingredient;
use records::{Place, Refusal, Station};
use std::alloc::{AllocError, Global};
use std::test::Fail;

// What open answers for so many places and stations. A Result in a Result: a trial asserts the inner one, and fails with
// the outer one.
fn opened(heap: Global, places: usize, stations: usize) -> Result<Result<(), Refusal>, AllocError> {
    let mut places = vec![in heap; Place::blank(Ingredient(0)); places]?;
    let mut stations = vec![in heap; Station { task: None }; stations]?;
    Ok(open(&mut places, &mut stations, &mut Line::new()))
}

#[test]
fn counts_out_of_bounds(rt: HostRuntime) -> Result<(), Fail> {
    for (places, stations) in [(1, 1), (1025, 1), (8, 0), (8, 17)] {
        assert_eq!(rt;
            opened(rt.alloc(), places, stations)?,
            Err(Refusal::BadCount),
            "{places} places, {stations} stations"
        );
    }
    Ok(())
}

#[test]
fn counts_within_bounds(rt: HostRuntime) -> Result<(), Fail> {
    let small = Err(Refusal::Guide(GuideRefusal::SmallGuide));
    let answers = [
        ((2, 1), Ok(())),
        ((64, 16), Ok(())),
        ((65, 16), small),
        ((1024, 16), small),
    ];
    for ((places, stations), answer) in answers {
        assert_eq!(rt;
            opened(rt.alloc(), places, stations)?,
            answer,
            "{places} places, {stations} stations"
        );
    }
    Ok(())
}
