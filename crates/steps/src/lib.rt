// The steps of the plan from stage to stage: in each the best candidate is added, and what it subsumes is dropped, until no candidate subsumes two edges.
// Least delays, how many edges each pair of tasks subsumes, and the times of the first turn are kept from step to step.
#![tactic(auto)]

ghost use Rattle.std.specs.Prelude.{List};
ghost use Rattle.model.specs.Tasks.{Edge};
ghost use Rattle.model.specs.Graph.{Graph};
ghost use Rattle.steps.specs.Steps.{Here, Stepped, Begun, Followed};

use candidates::best_pair;
use present::{Precedence, next_times};
use stages::{StageEdges, replace};
use subsumption::add_pair;

// What a step took: the candidate's source and sink.
#[derive(Clone, Copy)]
pub struct StepTaken {
    pub source: usize,
    pub sink: usize,
}

// How the last stage was reached: how many steps were taken, and the latency of the graph they lead to.
#[derive(Clone, Copy)]
pub struct LastStage {
    pub steps: u32,
    pub latency: u32,
}

// One step from a stage of an accepted graph, by its delays, counts and times: if a candidate is taken, stage, delays and counts are the next one's then;
// none if no candidate subsumes two edges.
pub fn step<'a, 'b>(
    tasks: usize,
    stage: &mut StageEdges,
    from: &'b mut [u16],
    to: &'b mut [u16],
    counts: &'b mut [u16],
    end: &'a [u32],
    latest: &'a [u32],
) -> Option<StepTaken>
    requires { (g : Graph) × (list : List Edge) × Here g list tasks stage.old from.old to.old counts.old end.now latest.now }
    ensures { (g : Graph) (list : List Edge) → Here g list tasks stage.old from.old to.old counts.old end.now latest.now → Stepped g list result stage.new from.new to.new counts.new }
{
    let pair = best_pair(counts, to, end, latest, tasks)?;
    let a = pair.source as usize;
    let b = pair.sink as usize;
    let count = stage.count as usize;
    add_pair(&stage.edges[..count], tasks, a, b, from, to, counts);
    // The delays to the pair's source and from its sink are as before.
    replace(stage, from, to, tasks, a, b);
    Some(StepTaken { source: a, sink: b })
}

// Follows the steps of the plan from its first stage: the stage is the last one then.
pub fn follow_steps<'a, 'b>(
    time: &'a [u16],
    stage: &mut StageEdges,
    from: &'b mut [u16],
    to: &'b mut [u16],
    counts: &'b mut [u16],
    first_order: Precedence,
    end: &'b mut [u32],
    latest: &'b mut [u32],
) -> LastStage
    requires { (g : Graph) × Begun g time.now stage.old from.old to.old counts.old first_order end.old latest.old }
    ensures { (g : Graph) → Begun g time.now stage.old from.old to.old counts.old first_order end.old latest.old → Followed g result stage.new }
{
    let tasks = time.len();
    let output = first_order.output;
    let mut order = first_order;
    let mut steps = 0;
    while let Some(taken) = step(tasks, stage, from, to, counts, end, latest) {
        order = next_times(time, taken.source, taken.sink, order, end, latest);
        steps += 1;
    }
    LastStage {
        steps,
        latency: end[output],
    }
}
