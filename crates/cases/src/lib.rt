// Worked cases on the plain tree.
#![tactic(auto)]

ghost use Rattle.std.specs.Prelude.{◌≡◌, true};
ghost use Rattle.cases.specs.Worked.{WorkedCases};

// True: its contract says what each worked case answers, and at which step.
pub fn worked_cases_hold() -> bool
    ensures { (result ≡ true) × WorkedCases }
{
    true
}
