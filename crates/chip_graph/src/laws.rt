//! Theorems on the definitions alone, as the contracts of functions that do nothing.

ghost use Rattle.chip_graph.specs.Laws.{OneFault};

/// A graph has no fault, and nothing has two first faults. So unless memory runs out, `Graph::new` accepts exactly the
/// graphs, and refuses everything else with its first fault.
pub fn one_answer()
    ensures { OneFault }
{}
