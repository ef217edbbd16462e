// What is proved of the walks of a tree, each theorem on the contract of a function.
ghost use Rattle.walk.specs.Walks.{InnerNodesHaveInnerSymbols, WalkLength, WalkEntersEachOnce, WalkLeavesEachOnce, BrothersAreVisitedInOrder, WalkNests};
ghost use Rattle.walk.specs.Turns.{WalkHasItsSteps, WalkGoesInTurn};

pub fn inner_nodes_have_inner_symbols()
    ensures { InnerNodesHaveInnerSymbols }
{}

pub fn walk_length()
    ensures { WalkLength }
{}

pub fn walk_enters_each_once()
    ensures { WalkEntersEachOnce }
{}

pub fn walk_leaves_each_once()
    ensures { WalkLeavesEachOnce }
{}

pub fn brothers_are_visited_in_order()
    ensures { BrothersAreVisitedInOrder }
{}

pub fn walk_nests()
    ensures { WalkNests }
{}

pub fn walk_has_its_steps()
    ensures { WalkHasItsSteps }
{}

pub fn walk_goes_in_turn()
    ensures { WalkGoesInTurn }
{}
