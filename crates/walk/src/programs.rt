// What is proved of straight-line programs, each theorem on the contract of a function, for every type of values.
ghost use Rattle.walk.specs.Programs.{ExecutionFulfils, FulfilmentIsUnique, BeginningsLikewise, ExecutionStopsAtTheUndefined};

pub fn execution_fulfils<V>()
    ensures { ExecutionFulfils V }
{}

pub fn fulfilment_is_unique<V>()
    ensures { FulfilmentIsUnique V }
{}

pub fn beginnings_likewise<V>()
    ensures { BeginningsLikewise V }
{}

pub fn execution_stops_at_the_undefined<V>()
    ensures { ExecutionStopsAtTheUndefined V }
{}
