// What is proved of paths and moves, each theorem on the contract of a function.
ghost use Rattle.walk.specs.Paths.{MovesPerformTheWalk, MovesFollowTheWalk, PathTellsTheMoves, PathIsWithinTheDepth};

pub fn moves_perform_the_walk()
    ensures { MovesPerformTheWalk }
{}

pub fn moves_follow_the_walk()
    ensures { MovesFollowTheWalk }
{}

pub fn path_tells_the_moves()
    ensures { PathTellsTheMoves }
{}

pub fn path_is_within_the_depth()
    ensures { PathIsWithinTheDepth }
{}
