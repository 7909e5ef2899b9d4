// A stage of the plan: the edges that stand where a graph's feedforward edges stood.
#![tactic(auto)]

ghost use Rattle.std.specs.Prelude.{[]};
ghost use Rattle.stages.specs.Stages.{HeldStage};

mod listing;
mod replacing;

use layout::EdgeRecord;
pub use listing::fill;
pub use replacing::replace;

// The edges of a stage: the first `count` records of the list.
#[derive(Clone, Copy)]
pub struct StageEdges {
    pub count: u32,
    pub edges: [EdgeRecord; 256],
}

// A stage without edges, to write into.
pub fn blank_stage() -> StageEdges
    ensures { HeldStage result [] }
{
    let none = EdgeRecord {
        source: 0,
        sink: 0,
        delay: 0,
    };
    StageEdges {
        count: 0,
        edges: [none; 256],
    }
}
