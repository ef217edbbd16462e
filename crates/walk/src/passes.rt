// What is proved of the order in which a pass sets its instances, each theorem on the contract of a function, for every type of values.
ghost use Rattle.walk.specs.Passes.{PassCarriesOutItsRules, PassIsOrdered, ArgumentsAreReady};

pub fn pass_carries_out_its_rules<V>()
    ensures { PassCarriesOutItsRules V }
{}

pub fn pass_is_ordered<V>()
    ensures { PassIsOrdered V }
{}

pub fn arguments_are_ready<V>()
    ensures { ArgumentsAreReady V }
{}
