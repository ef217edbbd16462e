// What is proved of numberings, each theorem on the contract of a function.
ghost use Rattle.numbering.specs.Theorems.{LeastIsUnique, DeletionIsLeast, DeletionNumbersGrammars};

pub fn least_is_unique()
    ensures { LeastIsUnique }
{}

pub fn deletion_is_least()
    ensures { DeletionIsLeast }
{}

pub fn deletion_numbers_grammars()
    ensures { DeletionNumbersGrammars }
{}
