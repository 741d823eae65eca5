// Worked examples of the tables and the bus reader, as one statement.
#![tactic(auto)]

ghost use Rattle.std.specs.Prelude.{◌≡◌};
ghost use Rattle.examples.specs.Worked.{Worked};

/// The examples of docs/CALLS.md hold of the definitions that the calls' promises cite. Answers how many
/// groups of them there are.
pub fn worked_examples() -> u8
    ensures hold { Worked }
    ensures count { result ≡ 9 }
{
    9
}
