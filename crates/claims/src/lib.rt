// The demands and the change requests as theorems over the contracts of the code: specs/ has the statements, proofs/ the proofs. The functions here promise
// once more what the calls of crates/resync_c promise, in the definitions that the demands speak of: a promise that such a call did not give could not be
// proved. That of resync_plan, which lends records, stands in proofs/Promises.antt. crates/resync_c_c exports the calls, with the same clauses.
#![tactic(auto)]

ghost use Rattle.std.specs.Prelude.{◌≡◌, length};
ghost use Rattle.acceptance.specs.Outcomes.{outcome};
ghost use Rattle.figures.specs.Figures.{figures_of};
ghost use Rattle.least_delays.specs.LeastDelays.{delays_refusal, delays_after};
ghost use Rattle.redundant.specs.Redundant.{redundant_of};
ghost use Rattle.timetable.specs.Timetable.{timetable_refusal, timetable_after};
ghost use Rattle.verdict.specs.Verdict.{verdict_of};

use acceptance::Outcome;
use figures::GraphFigures;
use redundant::RedundantSet;
use resync_c::{
    resync_figures, resync_least_delays, resync_redundant, resync_timetable, resync_verdict,
};
use verdict::ProposalVerdict;

pub fn figures_promised(graph: &[u8]) -> GraphFigures
    ensures { result ≡ figures_of graph.now }
{
    resync_figures(graph)
}

pub fn least_delays_promised(graph: &[u8], table: &mut [u16]) -> Outcome
    ensures outcome { result ≡ outcome (delays_refusal graph.now (length table.old)) }
    ensures table { table.new ≡ delays_after graph.now table.old }
{
    resync_least_delays(graph, table)
}

pub fn redundant_promised(graph: &[u8]) -> RedundantSet
    ensures { result ≡ redundant_of graph.now }
{
    resync_redundant(graph)
}

pub fn timetable_promised(graph: &[u8], turns: u64, starts: &mut [u32]) -> Outcome
    ensures outcome { result ≡ outcome (timetable_refusal graph.now turns (length starts.old)) }
    ensures starts { starts.new ≡ timetable_after graph.now turns starts.old }
{
    resync_timetable(graph, turns, starts)
}

pub fn verdict_promised(graph: &[u8], proposal: &[u8]) -> ProposalVerdict
    ensures { result ≡ verdict_of graph.now proposal.now }
{
    resync_verdict(graph, proposal)
}
