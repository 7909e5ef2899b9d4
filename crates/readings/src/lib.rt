// Reading a file: which graph or proposal the bytes are, in the working form, or which refusal of 1 to 8 they get.
#![tactic(auto)]

mod graphs;
mod proposals;

pub use graphs::read_graph;
use layout::EdgeRecord;
pub use proposals::read_proposal;

// A graph file as read, by value. The edges that order the graph stand in one list: processor edges first, entry v the one out of task v, then from
// entry `tasks` on those of the file. Past the ends every number is 0.
#[derive(Clone, Copy)]
pub struct GraphReading {
    pub tasks: u32,
    pub edges: u32,
    pub input: u32,
    pub output: u32,
    pub bound: u32,
    pub processor: [u8; 64],
    pub time: [u16; 64],
    pub ordering: [EdgeRecord; 320],
}

// A proposal file as read, by value. Past the end every number is 0.
#[derive(Clone, Copy)]
pub struct ProposalReading {
    pub edges: u32,
    pub proposed: [EdgeRecord; 256],
}
