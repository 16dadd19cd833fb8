// That the promises speak of something: runs of the calls come to every rule.
ghost use Rattle.std.specs.Prelude.{◌≡◌, true};
ghost use Rattle.promises.specs.Reached.{EveryRuleIsReached};

// True: its contract says that every rule of every work is reached by some run.
pub fn every_rule_is_reached() -> bool
    ensures { (result ≡ true) × EveryRuleIsReached }
{
    true
}
