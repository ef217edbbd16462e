// What is proved of instances and their rules, each theorem on the contract of a function.
ghost use Rattle.walk.specs.Positions.{ChildrenStandAtTheirPositions, PositionsHaveChildren};
ghost use Rattle.walk.specs.Instances.{EachInstanceHasOneRule, RulesSetInstances, SynthesizedAreSetAtTheNode, InheritedAreSetAtTheParent, ArgumentsAreInstances};

pub fn children_stand_at_their_positions()
    ensures { ChildrenStandAtTheirPositions }
{}

pub fn positions_have_children()
    ensures { PositionsHaveChildren }
{}

pub fn each_instance_has_one_rule()
    ensures { EachInstanceHasOneRule }
{}

pub fn rules_set_instances()
    ensures { RulesSetInstances }
{}

pub fn synthesized_are_set_at_the_node()
    ensures { SynthesizedAreSetAtTheNode }
{}

pub fn inherited_are_set_at_the_parent()
    ensures { InheritedAreSetAtTheParent }
{}

pub fn arguments_are_instances()
    ensures { ArgumentsAreInstances }
{}
