// What is proved of the values that passes come to, each theorem on the contract of a function, for every type of values.
ghost use Rattle.walk.specs.Evaluation.{PassSetsItsNumberAlone, PassEvaluates, PassesCompose, EvaluationStays, EvaluationIsUnique, FirstTakingIsLeast, RewritingKeepsTheEarlier};

pub fn pass_sets_its_number_alone<V>()
    ensures { PassSetsItsNumberAlone V }
{}

pub fn pass_evaluates<V>()
    ensures { PassEvaluates V }
{}

pub fn passes_compose<V>()
    ensures { PassesCompose V }
{}

pub fn evaluation_stays<V>()
    ensures { EvaluationStays V }
{}

pub fn evaluation_is_unique<V>()
    ensures { EvaluationIsUnique V }
{}

pub fn first_taking_is_least()
    ensures { FirstTakingIsLeast }
{}

pub fn rewriting_keeps_the_earlier<V>()
    ensures { RewritingKeepsTheEarlier V }
{}
