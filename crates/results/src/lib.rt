// The result of a proposal, as a list: the graph's edges that lie on a cycle, which are its processor and feedback edges, then the
// proposed ones.
#![tactic(auto)]

ghost use Rattle.std.specs.Prelude.{◌≡◌, ℕ, ◌≤◌, ◌<◌, length, take};
ghost use Rattle.records.specs.Columns.{at, edges_in};
ghost use Rattle.delays.specs.Delays.{Fit};
ghost use Rattle.reach.specs.Reach.{Circled, ReachesOn};
ghost use Rattle.results.specs.Results.{cyclic, result_of, HeldResult};

use layout::EdgeRecord;
use reach::{leads_to, paths_between_processors, processor_of};

// The edges of a result: the first `count` records of the list. 64 processor edges, 256 feedback edges and 256 proposed ones fit.
#[derive(Clone, Copy)]
pub struct ResultEdges {
    pub count: u32,
    pub edges: [EdgeRecord; 576],
}

// Stores the edges that lie on a cycle, where a path leads from the sink's processor back to the source's, at the front of a list. Gives how many.
fn keep_cyclic<'a>(
    edges: &'a [EdgeRecord],
    processor: &'a [u8],
    words: &'a [u64],
    list: &mut [EdgeRecord],
) -> usize
    requires edges_len_bound { (length edges.now ≤ 320) × ((v : ℕ) → v < length processor.now → at processor.now v < 16) }
    requires fit { Fit (length processor.now) (edges_in edges.now) }
    requires reaches_on { ReachesOn (length processor.now) (edges_in edges.now) processor.now words.now }
    requires room { length list.old ≡ 576 }
    ensures upper_bound { (result ≤ 320) × (length list.new ≡ 576) }
    ensures held { edges_in (take result list.new) ≡ cyclic (length processor.now) (edges_in edges.now) }
{
    let mut kept = 0;
    for e in edges {
        let from = processor_of(processor, e.sink);
        let to = processor_of(processor, e.source);
        // An edge that does not count is written over by the next.
        list[kept] = *e;
        kept += usize::from(leads_to(words, from, to));
    }
    kept
}

// The edges of the result of proposed edges, from the edges that order a graph. Paths lead from each task to each one of its processor, as the processor
// edges do, so paths between processors tell which edges lie on a cycle.
pub fn result_edges<'a>(
    edges: &'a [EdgeRecord],
    processor: &'a [u8],
    proposed: &'a [EdgeRecord],
) -> ResultEdges
    requires edges_len_bound { (length edges.now ≤ 320) × (length proposed.now ≤ 256) }
    requires by_index { (v : ℕ) → v < length processor.now → at processor.now v < 16 }
    requires fit { Fit (length processor.now) (edges_in edges.now) }
    requires circled { Circled (length processor.now) (edges_in edges.now) processor.now }
    ensures { HeldResult result (result_of (length processor.now) (edges_in edges.now) (edges_in proposed.now)) }
{
    let reach = paths_between_processors(edges, processor);
    let none = EdgeRecord {
        source: 0,
        sink: 0,
        delay: 0,
    };
    let mut list = [none; 576];
    let kept = keep_cyclic(edges, processor, &reach.words, &mut list);
    let count = kept + proposed.len();
    list[kept..count].copy_from_slice(proposed);
    ResultEdges {
        count: count as u32,
        edges: list,
    }
}
