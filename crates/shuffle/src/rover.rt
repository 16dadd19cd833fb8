// A guide over another one whose start wanders: each mend moves it on. So searches begin everywhere, also above their
// key, which the straight guide never leads to.
ghost use Rattle.std.specs.Prelude.{◌≡◌, true};
ghost use Rattle.guides.specs.Meaning.{has};

use guides::{Beside, Guide, GuideRefusal, HIGH, LOW, Mended, Number, Side};

#[derive(Drop)]
pub struct Rover<G> {
    inner: G,
    // Where a search starts, if this place is in the sequence.
    from: Number,
    // The number of places that the guide was last cleared for.
    places: usize,
}

// The guide leads no further on this side of the place, which is then in its sequence.
fn ends<G: Guide>(guide: &G, place: Number, side: Side) -> bool
    ensures { result ≡ true → has place (G.Guide.meaning guide.now).sequence ≡ true }
{
    guide.beside(place, side) == Beside::End
}

// The number after this one, round and round the places.
fn moved_on(from: Number, places: usize) -> Number {
    let next = from.saturating_add(1);
    if usize::from(next) < places {
        next
    } else {
        LOW
    }
}

impl<G: Guide> Guide for Rover<G> {
    const CAPACITY: usize = G::CAPACITY;

    ghost CAPACITY = { G.Guide.CAPACITY };

    ghost meaning = { λ g. G.Guide.meaning g.inner };

    // The guide below is mended; the start wanders besides.
    ghost mends = { λ g m h. G.Guide.mends g.inner m h.inner };

    ghost keeps = { λ r. G.Guide.keeps r.inner };

    fn new() -> Rover<G> {
        Rover {
            inner: G::new(),
            from: HIGH,
            places: 2,
        }
    }

    fn clear(&mut self, places: usize) -> Result<(), GuideRefusal> {
        self.inner.clear(places)?;
        self.places = places;
        Ok(())
    }

    // Where the start has wandered to, or High if that place is not in the sequence or lies inside it.
    fn start(&self) -> Number {
        if ends(&self.inner, self.from, Side::Lower) || ends(&self.inner, self.from, Side::Higher) {
            return self.from;
        }
        if ends(&self.inner, HIGH, Side::Higher) {
            return HIGH;
        }
        self.inner.start()
    }

    fn beside(&self, place: Number, side: Side) -> Beside {
        self.inner.beside(place, side)
    }

    fn attach(&mut self, lower: Number, place: Number, upper: Number) -> Result<(), GuideRefusal> {
        self.inner.attach(lower, place, upper)
    }

    fn detach(&mut self, place: Number) -> Result<(), GuideRefusal> {
        self.inner.detach(place)
    }

    fn mend(&mut self) -> Mended {
        self.from = moved_on(self.from, self.places);
        self.inner.mend()
    }
}
