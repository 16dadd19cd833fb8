// What a count of the places gives.

// How many places have each status. Low and High do not count.
#[derive(Clone, Copy, PartialEq, Eq, Debug)]
pub struct Counts {
    pub free: usize,
    pub in_hand: usize,
    pub chained: usize,
    pub retired: usize,
}
