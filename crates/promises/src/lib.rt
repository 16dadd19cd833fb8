// The promises of the index, proved over every run of its calls; and opening a book with them.
#![tactic(auto)]

ghost use Rattle.std.specs.Prelude.{◌≡◌, true};
ghost use Rattle.promises.specs.Promised.{Promises};

mod opening;
mod reached;

pub use opening::open;
use orders::Order;
pub use reached::every_rule_is_reached;

// True, for every kind of key with a lawful order: its contract says that the promises hold of every run.
pub fn are_kept<K: Order>() -> bool
    ensures { (result ≡ true) × Promises K.Order.rank }
{
    true
}
