// What one step of the plan does to a stage: the edges that a pair of tasks subsumes make room for the pair's own.
ghost use Rattle.std.specs.Prelude.{not, List, ℕ, ◌*◌, ◌≤◌, ◌<◌, length};
ghost use Rattle.model.specs.Lists.{keep};
ghost use Rattle.model.specs.Tasks.{Edge, Ends};
ghost use Rattle.model.specs.Plan.{with_pair};
ghost use Rattle.subsumption.specs.Subsumption.{subsumes_by};
ghost use Rattle.stages.specs.Stages.{HeldStage};

use crate::StageEdges;
use layout::EdgeRecord;
use subsumption::is_subsumed;

// Moves the edges that the pair (a, b) does not subsume to the front of the list, and leaves those.
fn keep_others<'a>(
    stage: &mut StageEdges,
    from: &'a [u16],
    to: &'a [u16],
    tasks: usize,
    a: usize,
    b: usize,
)
    requires tasks_bound { (tasks ≤ 64) × (tasks * 64 ≤ length from.now) × (tasks * 64 ≤ length to.now) × (a < tasks) × (b < tasks) }
    requires held_stage { (list : List Edge) × HeldStage stage.old list × Ends tasks list }
    ensures { (list : List Edge) → HeldStage stage.old list → HeldStage stage.new (keep (λ e. not (subsumes_by from.now to.now a b e)) list) }
{
    let mut kept = 0;
    for j in 0..stage.count as usize {
        let e = stage.edges[j];
        if !is_subsumed(from, to, a, b, e) {
            stage.edges[kept] = e;
            kept += 1;
        }
    }
    stage.count = kept as u32;
}

// Leaves the edges that the pair (a, b) does not subsume, and the pair's edge last.
pub fn replace<'a>(
    stage: &mut StageEdges,
    from: &'a [u16],
    to: &'a [u16],
    tasks: usize,
    a: usize,
    b: usize,
)
    requires tasks_bound { (tasks ≤ 64) × (tasks * 64 ≤ length from.now) × (tasks * 64 ≤ length to.now) × (a < tasks) × (b < tasks) }
    requires held_stage { (list : List Edge) × HeldStage stage.old list × Ends tasks list × (length (keep (λ e. not (subsumes_by from.now to.now a b e)) list) < 256) }
    ensures { (list : List Edge) → HeldStage stage.old list → HeldStage stage.new (with_pair (keep (λ e. not (subsumes_by from.now to.now a b e)) list) a b) }
{
    keep_others(stage, from, to, tasks, a, b);
    stage.edges[stage.count as usize] = EdgeRecord {
        source: a as u8,
        sink: b as u8,
        delay: 0,
    };
    stage.count += 1;
}
