// What is proved of rows of nodes and their trees, each theorem on the contract of a function.
ghost use Rattle.trees.specs.Faults.{RefusalNamesAFault};
ghost use Rattle.trees.specs.Theorems.{AcceptedHoldsATree, TreesAreAccepted, TreeIsUnique};

pub fn accepted_holds_a_tree()
    ensures { AcceptedHoldsATree }
{}

pub fn trees_are_accepted()
    ensures { TreesAreAccepted }
{}

pub fn tree_is_unique()
    ensures { TreeIsUnique }
{}

pub fn refusal_names_a_fault()
    ensures { RefusalNamesAFault }
{}
