// The guide's own upkeep.
ghost use Rattle.std.specs.Prelude.{◌≡◌};

use guides::{Guide, Mended};

// Lets the guide make one small correction, which keeps its meaning. It is never refused.
pub fn mend<G: Guide>(guide: &mut G) -> Mended
    ensures does { G.Guide.mends guide.old result guide.new }
    ensures keeps { G.Guide.meaning guide.new ≡ G.Guide.meaning guide.old }
{
    guide.mend()
}
