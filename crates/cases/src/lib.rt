// The proved table of worked examples: what the definitions say of two small circuits. The tests run the
// code on the same circuits.

#![tactic(auto)]

ghost use Rattle.cases.specs.Worked.{Worked};

#[cfg(test)]
mod tests;

pub fn worked_examples_hold()
    ensures { Worked }
{}
