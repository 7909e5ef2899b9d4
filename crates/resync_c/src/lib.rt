// The calls for C and Rust, as include/resync.h declares them: the list of the public contracts. Each hands on to the call of its crate, and promises the same.
// crates/resync_c_c exports them.
#![tactic(auto)]

ghost use Rattle.std.specs.Prelude.{◌≡◌, length};
ghost use Rattle.acceptance.specs.Outcomes.{outcome};
ghost use Rattle.figures.specs.Figures.{figures_of};
ghost use Rattle.least_delays.specs.LeastDelays.{delays_refusal, delays_after};
ghost use Rattle.redundant.specs.Redundant.{redundant_of};
ghost use Rattle.timetable.specs.Timetable.{timetable_refusal, timetable_after};
ghost use Rattle.verdict.specs.Verdict.{verdict_of};
ghost use Rattle.plan.specs.Plan.{plan_answer_of, plan_after};

use acceptance::Outcome;
use figures::GraphFigures;
use layout::EdgeRecord;
use plan::PlanAnswer;
use redundant::RedundantSet;
use verdict::ProposalVerdict;

// Tasks, edges and latency of a graph.
pub fn resync_figures(graph: &[u8]) -> GraphFigures
    ensures { result ≡ figures_of graph.now }
{
    figures::figures(graph)
}

// The least delay from each task to each, row by row at the front of the list, 65,535 where there is no path.
pub fn resync_least_delays(graph: &[u8], table: &mut [u16]) -> Outcome
    ensures outcome { result ≡ outcome (delays_refusal graph.now (length table.old)) }
    ensures table { table.new ≡ delays_after graph.now table.old }
{
    least_delays::least_delays(graph, table)
}

// The marks of the redundant edges, edge 1 the most significant bit of the first word, and how many are set.
pub fn resync_redundant(graph: &[u8]) -> RedundantSet
    ensures { result ≡ redundant_of graph.now }
{
    redundant::redundant(graph)
}

// The earliest starts at the estimated times in turns 1 to `turns`, turn by turn at the front of the list, tasks in order.
pub fn resync_timetable(graph: &[u8], turns: u64, starts: &mut [u32]) -> Outcome
    ensures outcome { result ≡ outcome (timetable_refusal graph.now turns (length starts.old)) }
    ensures starts { starts.new ≡ timetable_after graph.now turns starts.old }
{
    timetable::timetable(graph, turns as usize, starts)
}

// Whether a proposal is accepted beside a graph, with the latency of its result and its margin, or why not.
pub fn resync_verdict(graph: &[u8], proposal: &[u8]) -> ProposalVerdict
    ensures { result ≡ verdict_of graph.now proposal.now }
{
    verdict::verdict(graph, proposal)
}

// The plan of a graph, its edges at the front of the list, with its length, steps and latency.
pub fn resync_plan(graph: &[u8], edges: &mut [EdgeRecord]) -> PlanAnswer
    ensures answer { result ≡ plan_answer_of graph.now (length edges.old) }
    ensures edges { edges.new ≡ plan_after graph.now edges.old }
{
    plan::plan(graph, edges)
}
