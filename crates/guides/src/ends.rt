// The two places that always stand in a guide, first and last.
use crate::answer::Number;

pub const LOW: Number = 0;

pub const HIGH: Number = 1;
