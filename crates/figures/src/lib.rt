// The call for the figures of a graph. It asks nothing of its caller.
#![tactic(auto)]

ghost use Rattle.std.specs.Prelude.{◌≡◌};
ghost use Rattle.figures.specs.Figures.{figures_of};

use acceptance::{Outcome, SUCCESS, accept};

// Tasks, edges and latency of a graph; 0 if it is refused.
#[repr(C)]
#[derive(Clone, Copy)]
pub struct GraphFigures {
    pub outcome: Outcome,
    pub tasks: u32,
    pub edges: u32,
    pub latency: u32,
}

// Tasks, edges and latency of a graph.
pub fn figures(graph: &[u8]) -> GraphFigures
    ensures { result ≡ figures_of graph.now }
{
    match accept(graph) {
        Ok(accepted) => GraphFigures {
            outcome: SUCCESS,
            tasks: accepted.reading.tasks,
            edges: accepted.reading.edges,
            latency: accepted.latency,
        },
        Err(refused) => GraphFigures {
            outcome: refused.fault.into(),
            tasks: 0,
            edges: 0,
            latency: 0,
        },
    }
}
