//! The worked cases, shown of the definitions that the contracts cite.

#![tactic(auto)]

ghost use Rattle.std.specs.Prelude.{◌≡◌, length};
ghost use Rattle.cases.specs.Cases.{cases, AllHold};

/// The number of worked cases. What the definitions give is what each of them says.
pub fn worked_cases() -> usize
    ensures hold { AllHold }
    ensures count { result ≡ length cases }
{
    15
}
