// Stations that work together, step by step.
use crate::book::Book;
use guides::GuideRefusal;
use orders::Ingredient;
use records::{Answer, Damage, Phase, Refusal, Station, Stepped, Task, Work};
use std::test::Fail;

#[test]
fn the_least_and_the_greatest_key(rt: HostRuntime) -> Result<(), Fail> {
    let mut book = Book::<4, 1>::open()?;
    book.begin(0, Work::Put, 0)?;
    assert_eq!(rt; book.run(0)?, Stepped::Ended(Answer::Yes, 13));
    book.begin(0, Work::Put, 4_294_967_295)?;
    assert_eq!(rt; book.run(0)?, Stepped::Ended(Answer::Yes, 14));
    book.begin(0, Work::Put, 7)?;
    assert_eq!(rt; book.run(0)?, Stepped::Ended(Answer::NoRoom, 9));
    Ok(())
}

#[test]
fn a_lock_is_waited_for_and_not_left(rt: HostRuntime) -> Result<(), Fail> {
    let mut book = Book::<4, 2>::open()?;
    book.begin(0, Work::Put, 20)?;
    book.steps(0, 6)?;
    assert_eq!(rt; book.leave(0), Err(Refusal::HoldsLock));
    book.begin(1, Work::Put, 30)?;
    book.steps(1, 5)?;
    assert_eq!(rt; book.step(1)?, Stepped::Waits);
    book.leave(1)?;
    assert_eq!(rt; book.leave(1), Err(Refusal::Idle));
    Ok(())
}

#[test]
fn a_struck_place_waits_for_a_look(rt: HostRuntime) -> Result<(), Fail> {
    let mut book = Book::<3, 2>::open()?;
    book.begin(0, Work::Put, 20)?;
    let _ = book.run(0)?;
    book.begin(1, Work::Look, 20)?;
    book.steps(1, 1)?;
    book.begin(0, Work::Strike, 20)?;
    assert_eq!(rt; book.run(0)?, Stepped::Ended(Answer::Yes, 14));
    book.begin(0, Work::Put, 5)?;
    assert_eq!(rt; book.run(0)?, Stepped::Ended(Answer::NoRoom, 8));
    assert_eq!(rt; book.run(1)?, Stepped::Ended(Answer::No, 6));
    book.begin(0, Work::Put, 5)?;
    assert_eq!(rt; book.run(0)?, Stepped::Ended(Answer::Yes, 13));
    Ok(())
}

// A work in a phase that needs the places that it names.
fn lost(phase: Phase) -> Station<Ingredient> {
    Station {
        task: Some(Task {
            work: Work::Strike,
            key: Ingredient(1),
            phase,
            at: 99,
            other: 99,
            downs: 0,
            steps: 0,
            awaited: false,
        }),
    }
}

#[test]
fn damage_is_told_with_its_cause(rt: HostRuntime) -> Result<(), Fail> {
    let mut book = Book::<4, 2>::open()?;
    book.stations = [lost(Phase::Check), lost(Phase::Detach)];
    let missing = Refusal::Damaged(Damage::NoPlace);
    assert_eq!(rt; book.step(0), Err(missing));
    let refused = Refusal::Damaged(Damage::Guide(GuideRefusal::NotThere));
    assert_eq!(rt; book.step(1), Err(refused));
    assert_eq!(rt; book.step(2), Err(Refusal::NoStation));
    Ok(())
}
