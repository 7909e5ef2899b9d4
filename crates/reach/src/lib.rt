// Which processors a path leads to: a word for each, by Warshall's algorithm.
#![tactic(auto)]

ghost use Rattle.std.specs.Prelude.{◌≡◌, ◌||◌, ◌&&◌, List, ℕ, ◌≤◌, ◌<◌, eqb, map, length, get_or, replicate};
ghost use Rattle.model.specs.Tasks.{Edge, Ends};
ghost use Rattle.records.specs.Columns.{at, edges_in};
ghost use Rattle.reach.specs.Reach.{bit, Reaches, ReachesThrough, Merged, between, Circled, ReachesOn, SameEnds};

use layout::EdgeRecord;

// Word a, bit b: a path leads from processor a to processor b.
#[derive(Clone, Copy)]
pub struct Reach {
    pub words: [u64; 16],
}

// A word with one bit set.
pub fn with_bit(word: u64, at: usize) -> u64
    requires { at < 64 }
    ensures { (b : ℕ) → bit result b ≡ bit word b || eqb at b }
{
    word | (1 << at)
}

// Whether a bit of a word is set.
pub fn has_bit(word: u64, at: usize) -> bool
    requires { at < 64 }
    ensures { result ≡ bit word at }
{
    (word >> at) & 1 != 0
}

// A word, with the bits of another word too if bit k is set.
pub fn merged(word: u64, row: u64, k: usize) -> u64
    requires { k < 64 }
    ensures { (b : ℕ) → bit result b ≡ bit word b || (bit word k && bit row b) }
{
    if has_bit(word, k) { word | row } else { word }
}

// One round: a processor from which a path leads to processor k takes over where paths lead from k.
fn merge_through(k: usize, count: usize, words: &mut [u64])
    requires { (k < count) × (count ≤ 16) × (length words.old ≡ 16) }
    ensures { Merged count k words.old words.new }
{
    let row = words[k];
    for word in &mut words[..count] {
        *word = merged(*word, row, k);
    }
}

// As many rounds as processors: after k of them, all paths whose inner processors are below k count.
fn merge_all(count: usize, words: &mut [u64])
    requires { (count ≤ 16) × (length words.old ≡ 16) }
    ensures { (es : List Edge) → ReachesThrough 0 count es words.old → Reaches count es words.new }
{
    for k in 0..count {
        merge_through(k, count, words);
    }
}

// The processor of a task.
pub fn processor_of(processor: &[u8], task: u8) -> usize
    requires { task < length processor.now }
    ensures { result ≡ at processor.now task }
{
    processor[task as usize] as usize
}

// Sets the bit of each edge, between the processors of its ends.
fn take_between<'a>(edges: &'a [EdgeRecord], processor: &'a [u8], words: &mut [u64])
    requires ends { Ends (length processor.now) (edges_in edges.now) }
    requires by_index { (v : ℕ) → v < length processor.now → at processor.now v < 16 }
    requires words_value { words.old ≡ replicate 16 0 }
    ensures { ReachesThrough 0 16 (map (between processor.now) (edges_in edges.now)) words.new }
{
    for e in edges {
        let leaves = processor_of(processor, e.source);
        let enters = processor_of(processor, e.sink);
        words[leaves] = with_bit(words[leaves], enters);
    }
}

// A number that every processor of the tasks is below: one more than the highest of them, 1 if there are no tasks.
fn processors_used(processor: &[u8]) -> usize
    requires { (v : ℕ) → v < length processor.now → at processor.now v < 16 }
    ensures { (result ≤ 16) × ((v : ℕ) → v < length processor.now → at processor.now v < result) }
{
    let highest = processor.iter().copied().max().unwrap_or(0);
    highest as usize + 1
}

// Between which processors a path leads, and so between which tasks, where tasks of one processor lead to one another: rounds over the processors used,
// at most 16, serve 64 tasks. It holds of all edges with the same ends, whatever their delays.
pub fn paths_between_processors<'a>(edges: &'a [EdgeRecord], processor: &'a [u8]) -> Reach
    requires ends { Ends (length processor.now) (edges_in edges.now) }
    requires by_index { (v : ℕ) → v < length processor.now → at processor.now v < 16 }
    ensures { (es : List Edge) → SameEnds (edges_in edges.now) es → Circled (length processor.now) es processor.now → ReachesOn (length processor.now) es processor.now result.words }
{
    let mut words = [0; 16];
    take_between(edges, processor, &mut words);
    let used = processors_used(processor);
    merge_all(used, &mut words);
    Reach { words }
}

// Whether a path leads from one processor to another.
pub fn leads_to(words: &[u64], from: usize, to: usize) -> bool
    requires { (from < length words.now) × (to < 64) }
    ensures { result ≡ bit (get_or words.now from 0) to }
{
    has_bit(words[from], to)
}
