//! A theorem about each report: a function that does nothing, and is called for what it ensures.

ghost use Rattle.std.specs.Prelude.{◌≡◌, ℕ, List, false};
ghost use Rattle.edge_text.specs.EdgeGraph.{Said};
ghost use Rattle.component_answer.specs.Answers.{IsSaidReport};
ghost use Rattle.component_answer.specs.declared.answer.Wanted.{Wanted};

use component_report::one_report;
use edge_text::one_edge_graph;

/// What is said has at most one report on what the roots reach with the lines in order of height
/// and least member.
pub fn one_said_report()
    ensures { (said : Said) (roots : List (List ℕ)) (wanted : Wanted) (bytes other : List ℕ) → wanted.order ≡ false
        → IsSaidReport said roots wanted bytes → IsSaidReport said roots wanted other → bytes ≡ other }
{
    one_edge_graph();
    one_report();
}
