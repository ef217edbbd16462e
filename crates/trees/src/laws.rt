// What an evaluator may take from an accepted row, each law on the contract of a function.
ghost use Rattle.trees.specs.Laws.{ChildrenHaveTheSymbols, NodesHaveTheirChildren, ChildHasItsSymbol, ParentIsUnique, EveryNodeHasAParent, CellsDiffer};

pub fn children_have_the_symbols()
    ensures { ChildrenHaveTheSymbols }
{}

pub fn nodes_have_their_children()
    ensures { NodesHaveTheirChildren }
{}

pub fn child_has_its_symbol()
    ensures { ChildHasItsSymbol }
{}

pub fn parent_is_unique()
    ensures { ParentIsUnique }
{}

pub fn every_node_has_a_parent()
    ensures { EveryNodeHasAParent }
{}

pub fn cells_differ()
    ensures { CellsDiffer }
{}
