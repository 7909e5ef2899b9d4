// What the steps of a plan start from: delays and counts of the first stage, in rows of 64 numbers.
#![tactic(auto)]

ghost use Rattle.std.specs.Prelude.{◌≡◌, List, ◌++◌, ℕ, ◌*◌, ◌≤◌, length};
ghost use Rattle.model.specs.Graph.{count, edges};
ghost use Rattle.model.specs.Plan.{first_stage};
ghost use Rattle.records.specs.Columns.{at};
ghost use Rattle.readings.specs.Working.{graph_in};
ghost use Rattle.delays.specs.Delays.{delay_table};
ghost use Rattle.stages.specs.Stages.{HeldStage};
ghost use Rattle.acceptance.specs.Acceptance.{AcceptedReading};
ghost use Rattle.prepared.specs.Ready.{Ready};

use candidates::zero_diagonal;
use readings::GraphReading;
use stages::StageEdges;
use subsumption::count_edges;
use updates::spread;

// Delays and counts of the first stage of an accepted graph, by its edges, the graph's table of least delays and lists of 0.
pub fn prepare<'a>(
    graph: GraphReading,
    first: &StageEdges,
    table: &'a mut [u16],
    from: &'a mut [u16],
    to: &'a mut [u16],
    counts: &'a mut [u16],
)
    requires accepted_reading { AcceptedReading graph }
    requires held_stage { HeldStage first.now (first_stage (graph_in graph)) }
    requires by_index { (past : List ℕ) × (table.old ≡ delay_table (count (graph_in graph)) (edges (graph_in graph)) ++ past) }
    requires tasks_in_bounds { (graph.tasks * 64 ≤ length from.old) × (graph.tasks * 64 ≤ length to.old) × (graph.tasks * 64 ≤ length counts.old) }
    requires by_index_2 { ((i : ℕ) → at from.old i ≡ 0) × ((i : ℕ) → at to.old i ≡ 0) × ((i : ℕ) → at counts.old i ≡ 0) }
    ensures { Ready (graph_in graph) (first_stage (graph_in graph)) from.new to.new counts.new }
{
    let tasks = graph.tasks as usize;
    let size = tasks * tasks;
    zero_diagonal(&mut table[0..size], tasks);
    spread(&table[0..size], tasks, 1, tasks, from);
    spread(&table[0..size], 1, tasks, tasks, to);
    let count = first.count as usize;
    count_edges(&first.edges[..count], from, to, tasks, counts);
}
