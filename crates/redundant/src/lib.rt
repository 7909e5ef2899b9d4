// The call for the redundant edges of a graph. It asks nothing of its caller.
#![tactic(auto)]

ghost use Rattle.std.specs.Prelude.{◌≡◌};
ghost use Rattle.model.specs.Compute.{is_redundant};
ghost use Rattle.readings.specs.Working.{graph_in};
ghost use Rattle.marks.specs.Marks.{marks_of};
ghost use Rattle.acceptance.specs.Acceptance.{AcceptedReading};
ghost use Rattle.redundant.specs.Redundant.{redundant_of};

use acceptance::{Outcome, SUCCESS, accept};
use delays::least_table;
use marks::{Marks, count_set};
use readings::GraphReading;
use redundancy::redundant_marks;

// The redundant edges of a graph: their marks, and how many are set. No mark if it is refused.
#[repr(C)]
#[derive(Clone, Copy)]
pub struct RedundantSet {
    pub outcome: Outcome,
    pub marks: Marks,
    pub count: u32,
}

// The marks of the redundant edges, by the table of least delays.
fn marks_of(graph: &GraphReading) -> Marks
    requires { AcceptedReading graph.now }
    ensures { result ≡ marks_of (is_redundant (graph_in graph.now)) }
{
    let tasks = graph.tasks as usize;
    let end = tasks + graph.edges as usize;
    let edges = &graph.ordering[0..end];
    let mut table = [0; 4096];
    least_table(edges, tasks, &mut table);
    redundant_marks(edges, &table[0..tasks * tasks], tasks)
}

// The marks of the redundant edges, edge 1 the most significant bit of the first word, and how many are set.
pub fn redundant(graph: &[u8]) -> RedundantSet
    ensures { result ≡ redundant_of graph.now }
{
    match accept(graph) {
        Ok(accepted) => {
            let marks = marks_of(&accepted.reading);
            let count = count_set(marks);
            RedundantSet {
                outcome: SUCCESS,
                marks,
                count,
            }
        }
        Err(refused) => RedundantSet {
            outcome: refused.fault.into(),
            marks: Marks { words: [0; 4] },
            count: 0,
        },
    }
}
