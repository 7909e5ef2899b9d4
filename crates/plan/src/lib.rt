// The call for the plan of a graph: its first stage, and steps from stage to stage until no candidate subsumes two edges, into a lent list of edge records.
// The call asks nothing of its caller.
#![tactic(auto)]

ghost use Rattle.std.specs.Prelude.{◌≡◌, List, ◌++◌, ℕ, length, IfOk};
ghost use Rattle.model.specs.Graph.{count, edges};
ghost use Rattle.model.specs.Plan.{first_stage};
ghost use Rattle.files.specs.Files.{graph_of};
ghost use Rattle.files.specs.Refusals.{refusal_in};
ghost use Rattle.readings.specs.Working.{graph_in};
ghost use Rattle.delays.specs.Delays.{delay_table};
ghost use Rattle.stages.specs.Stages.{HeldStage};
ghost use Rattle.acceptance.specs.Acceptance.{AcceptedReading};
ghost use Rattle.plan.specs.Plan.{plan_refusal, plan_answer_of, plan_after, PlanFound};

use acceptance::{Outcome, SUCCESS, accept, check_room};
use files::Fault;
use first_stage::first_stage;
use layout::EdgeRecord;
use prepared::prepare;
use present::first_times;
use readings::GraphReading;
use stages::{StageEdges, fill};
use steps::follow_steps;

// The plan of a graph: how many edges it lists, how many steps it took, and the latency of the graph it leads to; 0 if it is refused.
#[repr(C)]
#[derive(Clone, Copy)]
pub struct PlanAnswer {
    pub outcome: Outcome,
    pub length: u32,
    pub steps: u32,
    pub latency: u32,
}

// The plan of an accepted graph: its edges, how many steps led to it, and the latency of the graph it leads to.
#[derive(Clone, Copy)]
struct GraphPlan {
    stage: StageEdges,
    steps: u32,
    latency: u32,
}

// The plan of an accepted graph from its first stage on, by its table of least delays. Not put inline: its lists and those of the first
// stage are not to be on the stack at once (RESYNC_STACK_BYTES of include/resync.h).
#[inline(never)]
fn plan_from(graph: GraphReading, mut stage: StageEdges, table: &mut [u16]) -> GraphPlan
    requires accepted_reading { AcceptedReading graph }
    requires held_stage { HeldStage stage (first_stage (graph_in graph)) }
    requires by_index { (past : List ℕ) × (table.old ≡ delay_table (count (graph_in graph)) (edges (graph_in graph)) ++ past) }
    ensures { PlanFound (graph_in graph) result }
{
    let mut from: [u16; 4096] = [0; 4096];
    let mut to: [u16; 4096] = [0; 4096];
    let mut counts: [u16; 4096] = [0; 4096];
    prepare(graph, &stage, table, &mut from, &mut to, &mut counts);
    let tasks = graph.tasks as usize;
    let mut end: [u32; 64] = [0; 64];
    let mut latest: [u32; 64] = [0; 64];
    let order = first_times(graph, &mut end[0..tasks], &mut latest[0..tasks]);
    let last = follow_steps(
        &graph.time[0..tasks],
        &mut stage,
        &mut from,
        &mut to,
        &mut counts,
        order,
        &mut end[0..tasks],
        &mut latest[0..tasks],
    );
    GraphPlan {
        stage,
        steps: last.steps,
        latency: last.latency,
    }
}

// The plan of an accepted graph.
fn planned(graph: GraphReading) -> GraphPlan
    requires { AcceptedReading graph }
    ensures { PlanFound (graph_in graph) result }
{
    let tasks = graph.tasks as usize;
    let end = tasks + graph.edges as usize;
    let mut table: [u16; 4096] = [0; 4096];
    let first = first_stage(&graph.ordering[0..end], tasks, &mut table);
    plan_from(graph, first, &mut table)
}

// Everything but the writing, for a list of so many records.
fn decide(graph: &[u8], room: usize) -> Result<GraphPlan, Fault>
    ensures refusal { refusal_in result ≡ plan_refusal graph.now room }
    ensures plan { IfOk result (λ p. PlanFound (graph_of graph.now) p) }
{
    let accepted = accept(graph)?;
    check_room(accepted.reading.edges as usize, room)?;
    Ok(planned(accepted.reading))
}

// The plan: the edges that take the place of the feedforward ones, at the front of the list, and how many, after how many steps, with
// which latency.
pub fn plan(graph: &[u8], edges: &mut [EdgeRecord]) -> PlanAnswer
    ensures answer { result ≡ plan_answer_of graph.now (length edges.old) }
    ensures edges { edges.new ≡ plan_after graph.now edges.old }
{
    match decide(graph, edges.len()) {
        Ok(plan) => {
            fill(edges, &plan.stage);
            PlanAnswer {
                outcome: SUCCESS,
                length: plan.stage.count,
                steps: plan.steps,
                latency: plan.latency,
            }
        }
        Err(fault) => PlanAnswer {
            outcome: fault.into(),
            length: 0,
            steps: 0,
            latency: 0,
        },
    }
}
