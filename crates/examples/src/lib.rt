// The worked examples: four small tables, the passes that compute their attributes, and the values of a score.
#![tactic(auto)]

ghost use Rattle.examples.specs.Examples.{WorkedExamples};

pub fn worked_examples_hold()
    ensures { WorkedExamples }
{}
