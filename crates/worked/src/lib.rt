// The worked examples, as the contract of a function that does nothing.
#![tactic(auto)]

ghost use Rattle.worked.specs.Examples.{Examples, SmallCases};

// The worked examples hold of the definitions.
pub fn worked_examples()
    ensures examples { Examples }
    ensures cases { SmallCases }
{}
