ghost use Rattle.sh_ways.specs.Graph.{ArePlansLeast, Graph};
ghost use Rattle.sh_ways.specs.Rows.{DoNumbersTell};

/// The plan leads from the one state to the other, and no list of moves costs less.
pub fn least_plan<S, M>()
    ensures { (g : Graph S M) → ArePlansLeast g }
{}

/// What is found over numbered states holds of the states: the rows are in order for a search, the
/// numbers are the distances, and the first least way of edges is the plan.
pub fn numbered<S, M>()
    ensures { (g : Graph S M) → DoNumbersTell g }
{}
