// The checked examples: one table of worked cases, with one theorem about the definitions that the contracts use.
#![tactic(auto)]

ghost use Rattle.examples.specs.Examples.{Each, examples};

// Every row of the table holds.
pub fn examples_hold()
    ensures { Each examples }
{}
