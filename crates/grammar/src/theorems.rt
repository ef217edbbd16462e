// What the arc board and its arcs say, each theorem on the contract of a function.
ghost use Rattle.grammar.specs.ArcTheorems.{LabelsStandForRelations, SamePositionIsBarredBothWays, GivenPrecedesNothing};

pub fn labels_stand_for_relations()
    ensures { LabelsStandForRelations }
{}

pub fn same_position_is_barred_both_ways()
    ensures { SamePositionIsBarredBothWays }
{}

pub fn given_precedes_nothing()
    ensures { GivenPrecedesNothing }
{}
