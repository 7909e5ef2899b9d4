// The first stage of the plan: the feedforward edges that are not redundant.
#![tactic(auto)]

ghost use Rattle.std.specs.Prelude.{◌≡◌, List, ◌++◌, ◌+◌, ◌*◌, ◌≤◌, length, drop};
ghost use Rattle.model.specs.Tasks.{Edge, Ends};
ghost use Rattle.records.specs.Columns.{edges_in};
ghost use Rattle.marks.specs.Marks.{mark_at};
ghost use Rattle.delays.specs.Delays.{delay_table, Fit};
ghost use Rattle.redundancy.specs.Redundancy.{Apart};
ghost use Rattle.stages.specs.Stages.{HeldStage};
ghost use Rattle.first_stage.specs.FirstStage.{needed, first_stage_in};

use delays::{has_path, least_table};
use layout::EdgeRecord;
use marks::{Marks, is_marked};
use redundancy::redundant_marks;
use stages::{StageEdges, blank_stage};

// The edges that are not marked and do not lie on a cycle, where a path leads from the sink back to the source, in their sequence.
fn keep_needed<'a>(
    edges: &'a [EdgeRecord],
    marks: Marks,
    table: &'a [u16],
    tasks: usize,
) -> StageEdges
    requires tasks_bound { (tasks ≤ 64) × (length edges.now ≤ 256) × (length table.now ≡ tasks * tasks) }
    requires ends { Ends tasks (edges_in edges.now) }
    ensures { (es : List Edge) → Fit tasks es → table.now ≡ delay_table tasks es → HeldStage result (needed tasks es (mark_at marks) (edges_in edges.now)) }
{
    let mut stage = blank_stage();
    for (j, e) in edges.iter().enumerate() {
        if !is_marked(marks, j as u32)
            && !has_path(table, tasks, e.sink as usize, e.source as usize)
        {
            stage.edges[stage.count as usize] = *e;
            stage.count += 1;
        }
    }
    stage
}

// The feedforward edges of an accepted graph that are not redundant, in the file's sequence. The graph comes as its edges, those of processors first. The
// least delays between its tasks are left at the front of the table, row by row. Not put inline: its lists are to leave the stack with it.
#[inline(never)]
pub fn first_stage<'a, 'b>(
    edges: &'a [EdgeRecord],
    tasks: usize,
    table: &'b mut [u16],
) -> StageEdges
    requires tasks_bound { (tasks ≤ 64) × (tasks ≤ length edges.now) × (length edges.now ≤ tasks + 256) }
    requires fit { Fit tasks (edges_in edges.now) }
    requires apart { Apart tasks (edges_in edges.now) }
    requires tasks_in_bounds { tasks * tasks ≤ length table.old }
    ensures stage { HeldStage result (first_stage_in tasks (edges_in edges.now)) }
    ensures table { table.new ≡ delay_table tasks (edges_in edges.now) ++ drop (tasks * tasks) table.old }
{
    least_table(edges, tasks, table);
    let delays = &table[0..tasks * tasks];
    let marks = redundant_marks(edges, delays, tasks);
    keep_needed(&edges[tasks..], marks, delays, tasks)
}
