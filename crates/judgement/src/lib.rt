// Refusals 13 to 15: the judgement of proposed edges beside an accepted graph. No file is asked for: the edges may come from anywhere.
#![tactic(auto)]

ghost use Rattle.std.specs.Prelude.{◌≡◌, false, List, ℕ, ◌≤◌, ◌<◌, length};
ghost use Rattle.model.specs.Tasks.{Edge, Ends};
ghost use Rattle.model.specs.Graph.{count, edges};
ghost use Rattle.model.specs.Compute.{zero_cycle};
ghost use Rattle.model.specs.Proposals as proposals;
ghost use Rattle.records.specs.Columns.{edges_in, at};
ghost use Rattle.files.specs.Files.{first_of};
ghost use Rattle.files.specs.Refusals.{refusal_in};
ghost use Rattle.readings.specs.Working.{graph_in, proposed_in};
ghost use Rattle.reach.specs.Reach.{ReachesOn};
ghost use Rattle.delays.specs.Delays.{Fit};
ghost use Rattle.results.specs.Results.{result_in, HeldResult};
ghost use Rattle.acceptance.specs.Acceptance.{AcceptedReading};
ghost use Rattle.judgement.specs.Judgement.{cycle_refusal, judgement, Judges};
ghost use Rattle.judgement.specs.Searches.{first_cyclic, lost_from, Judgeable, Made, lost_in, late_in};

use delays::{FAR, WIDTH, finish_row, take_steps};
use files::Fault;
use layout::EdgeRecord;
use reach::{leads_to, paths_between_processors, processor_of};
use readings::{GraphReading, ProposalReading};
use results::{ResultEdges, result_edges};

// 13: the first of some edges that lies on a cycle, by between which processors paths lead in the graph that has them.
fn cyclic_edge<'a>(
    edges: &'a [EdgeRecord],
    processor: &'a [u8],
    words: &'a [u64],
) -> Result<(), Fault>
    requires edges_len_bound { (length edges.now ≤ 256) × (length words.now ≡ 16) }
    requires by_index { (v : ℕ) → v < length processor.now → at processor.now v < 16 }
    requires ends { Ends (length processor.now) (edges_in edges.now) }
    ensures { (rs : List Edge) → ReachesOn (length processor.now) rs processor.now words.now → refusal_in result ≡ first_cyclic (length processor.now) rs (edges_in edges.now) }
{
    for (j, e) in edges.iter().enumerate() {
        let from = processor_of(processor, e.source);
        let to = processor_of(processor, e.sink);
        if leads_to(words, to, from) {
            return Err(Fault::OnCycle(j as u32 + 1));
        }
    }
    Ok(())
}

// 14: the first edge of a graph's file whose order is lost in the result. An edge of the result with the same ends and no more delay holds an order; where
// there is none, the row of least delays out of the order's source decides. Processor edges stand first in the list, one for each task.
fn lost_order<'a>(
    edges: &'a [EdgeRecord],
    made: &'a [EdgeRecord],
    tasks: usize,
) -> Result<(), Fault>
    requires tasks_in_bounds { (tasks ≤ length edges.now) × (length edges.now ≤ 320) × (tasks ≤ 64) }
    requires fit { Fit tasks (edges_in edges.now) }
    requires fit_2 { Fit tasks (edges_in made.now) }
    ensures { refusal_in result ≡ lost_from tasks (edges_in made.now) (edges_in edges.now) }
{
    let mut known: [u16; 4096] = [FAR; 4096];
    take_steps(made, &mut known);
    let mut done: u64 = 0;
    for (j, e) in edges[tasks..].iter().enumerate() {
        let from = e.source as usize;
        let at = from * WIDTH + e.sink as usize;
        let most = e.delay as u16;
        if most < known[at] {
            done = finish_row(from, tasks, done, &mut known);
            if most < known[at] {
                return Err(Fault::LostOrder(j as u32 + 1));
            }
        }
    }
    Ok(())
}

// The edges of the result of proposed edges beside a graph.
fn made_result(graph: GraphReading, proposal: ProposalReading) -> ResultEdges
    requires { Judgeable graph proposal }
    ensures { HeldResult result (edges (proposals.result (graph_in graph) (proposed_in proposal))) }
{
    let tasks = graph.tasks as usize;
    let end = tasks + graph.edges as usize;
    let proposed = proposal.edges as usize;
    result_edges(
        &graph.ordering[0..end],
        &graph.processor[0..tasks],
        &proposal.proposed[0..proposed],
    )
}

// 13: the first proposed edge that lies on a cycle of the result.
fn check_cycle(
    graph: GraphReading,
    proposal: ProposalReading,
    made: ResultEdges,
) -> Result<(), Fault>
    requires judgeable { Judgeable graph proposal }
    requires held_result { HeldResult made (edges (proposals.result (graph_in graph) (proposed_in proposal))) }
    ensures { refusal_in result ≡ first_of (length (proposed_in proposal)) (cycle_refusal (graph_in graph) (proposed_in proposal)) }
{
    let tasks = graph.tasks as usize;
    let proposed = proposal.edges as usize;
    let count = made.count as usize;
    let reach = paths_between_processors(&made.edges[0..count], &graph.processor[0..tasks]);
    cyclic_edge(
        &proposal.proposed[0..proposed],
        &graph.processor[0..tasks],
        &reach.words,
    )
}

// 14: the first edge of the file whose order is lost in the result.
fn check_order(graph: GraphReading, made: ResultEdges) -> Result<(), Fault>
    requires accepted_reading { AcceptedReading graph }
    requires made { (proposed : List Edge) × Made graph proposed made }
    ensures { refusal_in result ≡ lost_in (graph_in graph) (result_in made) }
{
    let tasks = graph.tasks as usize;
    let end = tasks + graph.edges as usize;
    let count = made.count as usize;
    lost_order(&graph.ordering[0..end], &made.edges[0..count], tasks)
}

// 15, or the latency of a result without cycle of delay 0: it is held against the bound.
fn check_lateness(graph: GraphReading, made: ResultEdges) -> Result<u32, Fault>
    requires accepted_reading { AcceptedReading graph }
    requires made { (proposed : List Edge) × Made graph proposed made }
    requires made_value { zero_cycle (count (graph_in graph)) (result_in made) ≡ false }
    ensures { Judges result (late_in (graph_in graph) (result_in made)) }
{
    let tasks = graph.tasks as usize;
    let count = made.count as usize;
    let latency = starts::latency(
        &made.edges[0..count],
        &graph.time[0..tasks],
        graph.output as usize,
    );
    if graph.bound < latency {
        return Err(Fault::Late(latency));
    }
    Ok(latency)
}

// Judges proposed edges beside an accepted graph: 13, 14, 15, in this sequence, or the latency of their result.
pub fn judge(graph: GraphReading, proposal: ProposalReading) -> Result<u32, Fault>
    requires { Judgeable graph proposal }
    ensures { Judges result (judgement (graph_in graph) (proposed_in proposal)) }
{
    let made = made_result(graph, proposal);
    check_cycle(graph, proposal, made)?;
    check_order(graph, made)?;
    check_lateness(graph, made)
}
