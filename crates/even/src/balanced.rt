// The even tree: the plain tree and the heights, what is recorded at each call, and the small corrections. Its guide
// stands in a file below.
ghost use Rattle.std.specs.Prelude.{◌≡◌, true};
ghost use Rattle.even.specs.Balance.{Finds, FindsBy, flawed, leaning, rotated, remarked, turned_over, marked_over};
ghost use Rattle.even.specs.Evened.{evened, entries_of, heights_of};

use crate::heights::Heights;
use guides::{Number, Side};
use trees::Tree;

mod guiding;

// The places of the table are 0 to 1023, as a place number: the table counts its slots by a usize.
const PLACES: Number = 1024;

// The first place of the table that passes a test.
fn first_place<F: Fn(Number) -> bool>(test: F) -> Option<Number>
    requires { F.IsAlwaysCallable test }
    ensures { FindsBy (F.post test) result }
{
    (0..PLACES).find(|place| test(*place))
}

// The tree keeps the rule against loops itself. The heights are slots of their own beside its entries, since the plain tree
// has none and is used here as it is.
#[derive(Drop)]
pub struct Even {
    tree: Tree,
    heights: Heights,
}

impl Even {
    // Whether a place of the tree has a wrong side.
    fn is_flawed(&self, place: Number) -> bool
        ensures { result ≡ flawed (entries_of self.now) (heights_of self.now) place }
    {
        let stands = self.tree.stands(place);
        let low = self.heights.is_wrong(&self.tree, place, Side::Lower);
        let high = self.heights.is_wrong(&self.tree, place, Side::Higher);
        0 < place && (stands && (low || high))
    }

    // Whether a place of the tree other than High has heights that differ by 2 or more.
    fn is_leaning(&self, place: Number) -> bool
        ensures { result ≡ leaning (entries_of self.now) (heights_of self.now) place }
    {
        let stands = self.tree.stands(place);
        let uneven = self.heights.of(place).uneven();
        1 < place && (stands && uneven)
    }

    // The first place with a wrong side.
    #[tactic(auto, using(crate::proofs::Finding::finds_as))]
    fn first_flawed(&self) -> Option<Number>
        ensures { Finds (flawed (entries_of self.now) (heights_of self.now)) result }
    {
        first_place(|place| self.is_flawed(place))
    }

    // The first place that leans.
    #[tactic(auto, using(crate::proofs::Finding::finds_as))]
    fn first_leaning(&self) -> Option<Number>
        ensures { Finds (leaning (entries_of self.now) (heights_of self.now)) result }
    {
        first_place(|place| self.is_leaning(place))
    }

    // A place that leans and is taller than the best so far, or else that one.
    fn taller(&self, best: Number, place: Number) -> Number
        ensures { leaning (entries_of self.now) (heights_of self.now) best ≡ true → leaning (entries_of self.now) (heights_of self.now) result ≡ true }
    {
        let taller = self.heights.of(best).greater() < self.heights.of(place).greater();
        if taller && self.is_leaning(place) {
            place
        } else {
            best
        }
    }

    // Of the places that lean the one with the greatest height, so that a child turned before is not turned back. Of
    // equals it is the first.
    fn tallest_leaning(&self) -> Option<Number>
        ensures { Finds (leaning (entries_of self.now) (heights_of self.now)) result }
    {
        let first = self.first_leaning()?;
        Some((first..PLACES).fold(first, |best, place| self.taller(best, place)))
    }

    // Turns a place to a side, with the heights that change.
    // That the meaning stays is said here, at turn_over and at mend: an invariant could not speak of before and after.
    #[tactic(auto, unfolding(crate::specs::Balance::rotated, crate::specs::Balance::remarked))]
    fn rotate(&mut self, side: Side, place: Number)
        ensures keeps { evened self.new ≡ evened self.old }
        ensures turns { entries_of self.new ≡ rotated side place (entries_of self.old) }
        ensures marks { heights_of self.new ≡ remarked side place (entries_of self.old) (heights_of self.old) }
    {
        let child = self.tree.entry(place).child(side);
        if self.tree.turn(side, place) {
            self.heights.mark_turned(side, place, child);
        }
    }

    // Turns a place that leans to its heavier side; if the child there leans the other way, that one is turned.
    #[tactic(auto, unfolding(crate::specs::Balance::turned_over, crate::specs::Balance::marked_over))]
    fn turn_over(&mut self, place: Number)
        ensures keeps { evened self.new ≡ evened self.old }
        ensures entries { entries_of self.new ≡ turned_over place (entries_of self.old) (heights_of self.old) }
        ensures heights { heights_of self.new ≡ marked_over place (entries_of self.old) (heights_of self.old) }
    {
        let side = self.heights.of(place).heavier();
        let child = self.tree.entry(place).child(side);
        let far = side.opposite();
        let near_height = self.heights.of(child).height(side);
        let far_height = self.heights.of(child).height(far);
        if near_height < far_height {
            self.rotate(far, child);
        } else {
            self.rotate(side, place);
        }
    }
}
