// What is proved of the values of rules.
ghost use Rattle.walk.specs.Values.{UnadmittedRulesHaveNoValue};

pub fn unadmitted_rules_have_no_value<V>()
    ensures { UnadmittedRulesHaveNoValue V }
{}
