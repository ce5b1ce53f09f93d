//! What the definitions say of the nodes of all units. Each function does nothing: its contract is
//! the law.
ghost use Rattle.unit_graph.specs.Laws.{PlacesOfUnitsRise, GraphsAreWithin, GraphsAreFormed};
ghost use Rattle.unit_graph.specs.Laws.{RowsAreNumbers};

/// Where each unit stands before the next one, the places of all nodes rise: no two entries begin
/// at one.
pub fn places_rise()
    ensures { PlacesOfUnitsRise }
{}

/// The graph of units has a node for each source, and each reference is to one of its nodes.
pub fn graphs_are_within()
    ensures { GraphsAreWithin }
{}

/// The nodes of the graph of units are well formed, and its declarations fit their definitions.
pub fn graphs_are_formed()
    ensures { GraphsAreFormed }
{}

/// The rows of the places of nodes have just the numbers of the nodes.
pub fn rows_are_numbers()
    ensures { RowsAreNumbers }
{}
