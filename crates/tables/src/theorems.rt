// What is proved of reading tables, each theorem on the contract of a function.
ghost use Rattle.tables.specs.Theorems.{AcceptedIsLawful, LawfulIsAccepted};
ghost use Rattle.tables.specs.Faults.{RefusalNamesAFault};

pub fn accepted_is_lawful()
    ensures { AcceptedIsLawful }
{}

pub fn lawful_is_accepted()
    ensures { LawfulIsAccepted }
{}

pub fn refusal_names_a_fault()
    ensures { RefusalNamesAFault }
{}
