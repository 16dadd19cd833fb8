// The orders of the kinds of keys.
use orders::{Days, Lot, LotNumber, Order, Pair};
use std::cmp::Ordering;

fn lot(days: i16, number: u32) -> Lot {
    Pair {
        first: Days(days),
        second: LotNumber(number),
    }
}

#[test]
fn fewer_days_come_first(rt: HostRuntime) {
    assert_eq!(rt; Days(-1).compare(Days(0)), Ordering::Less);
    assert_eq!(rt; Days(32_767).compare(Days(-32_768)), Ordering::Greater);
    assert_eq!(rt; Days(-32_768).compare(Days(32_767)), Ordering::Less);
}

#[test]
fn days_decide_before_the_lot_number(rt: HostRuntime) {
    assert_eq!(rt; lot(3, 9).compare(lot(4, 1)), Ordering::Less);
    assert_eq!(rt; lot(4, 9).compare(lot(4, 1)), Ordering::Greater);
    assert_eq!(rt; lot(32_767, 0).compare(lot(-32_768, 0)), Ordering::Greater);
    assert_eq!(rt; lot(4, 1).compare(lot(4, 1)), Ordering::Equal);
}
