//! Laws of the nodes. Each function computes nothing: its contract is the law.

ghost use Rattle.c_nodes.specs.Laws.{PartsAreListed, PlacesHaveCells};

/// Arguments of a call and parts of a sequence say what their trees say.
pub fn parts_are_listed()
    ensures { PartsAreListed }
{}

/// Each cell of an array or a struct that is a constant place has a number in what a node answers, if it has in the array
/// or the object that is its part.
pub fn places_have_cells()
    ensures { PlacesHaveCells }
{}
