// The checks of tasks and edges: each gives the first refusal over a list, in the file's sequence. The contracts speak of the tasks
// whose numbers the lists hold, and of the edges of the records.
ghost use Rattle.std.specs.Prelude.{◌≡◌, List, ◌+◌, ◌≤◌, ◌<◌, eqb, length};
ghost use Rattle.std.specs.List.{list_any};
ghost use Rattle.model.specs.Tasks.{Task};
ghost use Rattle.model.specs.Graph.{Graph};
ghost use Rattle.files.specs.Refusals.{refusal_in};
ghost use Rattle.files.specs.Files.{first_of, time_refusal, ends_refusal, edge_refusal, repeat_refusal, repeats_earlier, graph_records_refusal, proposed_edges_refusal};
ghost use Rattle.files.specs.Repeated.{edge_place, KeyOf, Keyed, SeenBefore};
ghost use Rattle.records.specs.Columns.{ProcessorsOf, TimesOf, edges_in};

use crate::Fault;
use layout::EdgeRecord;

// 5: the first task whose time is 0.
fn check_times(time: &[u16]) -> Result<(), Fault>
    requires { length time.now ≤ 64 }
    ensures { (g : Graph) → TimesOf g.tasks time.now → refusal_in result ≡ first_of (length g.tasks) (time_refusal g) }
{
    for (v, &estimate) in time.iter().enumerate() {
        if estimate == 0 {
            return Err(Fault::TimeOfZero(v as u32));
        }
    }
    Ok(())
}

// 6: the first edge with an end that is not below the number of tasks.
fn check_ends(tasks: usize, edges: &[EdgeRecord]) -> Result<(), Fault>
    requires { length edges.now ≤ 256 }
    ensures { refusal_in result ≡ first_of (length edges.now) (ends_refusal tasks (edges_in edges.now)) }
{
    for (j, e) in edges.iter().enumerate() {
        let from = e.source as usize;
        let to = e.sink as usize;
        if from >= tasks || to >= tasks {
            return Err(Fault::EndOutside(j as u32 + 1));
        }
    }
    Ok(())
}

// 6 then 7: the first edge with an end that is not below the number of tasks, or with both ends on one processor.
fn check_edges<'a>(processor: &'a [u8], edges: &'a [EdgeRecord]) -> Result<(), Fault>
    requires { length edges.now ≤ 256 }
    ensures { (ts : List Task) → ProcessorsOf ts processor.now → refusal_in result ≡ first_of (length edges.now) (edge_refusal ts (edges_in edges.now)) }
{
    for (j, e) in edges.iter().enumerate() {
        let from = e.source as usize;
        let to = e.sink as usize;
        if from >= processor.len() || to >= processor.len() {
            return Err(Fault::EndOutside(j as u32 + 1));
        }
        if processor[from] == processor[to] {
            return Err(Fault::WithinProcessor(j as u32 + 1));
        }
    }
    Ok(())
}

// The number that an edge's source, sink and delay make as its digits, each of a byte.
fn edge_key(e: EdgeRecord) -> u32
    ensures { KeyOf e result }
{
    u32::from_be_bytes([0, e.source, e.sink, e.delay])
}

// Whether one of the keys is the one sought. All are compared, with no jump in between, so that vector instructions compare several at a time.
fn holds(keys: &[u32], sought: u32) -> bool
    ensures { result ≡ list_any (λ key. eqb key sought) keys.now }
{
    let mut found = false;
    for &key in keys {
        found |= key == sought;
    }
    found
}

// Whether edge j has the source, sink and delay of an earlier one.
fn repeats_earlier<'a>(edges: &'a [EdgeRecord], keys: &'a [u32], j: usize) -> bool
    requires j_in_bounds { j < length edges.now }
    requires keyed { Keyed edges.now j keys.now }
    ensures { result ≡ repeats_earlier (edges_in edges.now) j }
{
    holds(&keys[..j], edge_key(edges[j]))
}

// The place of an edge's mark.
fn edge_place(e: EdgeRecord) -> usize
    ensures { result ≡ edge_place e }
{
    (e.source as usize * 64 + e.sink as usize + e.delay as usize * 1657) % 4096
}

// Whether edge j has the source, sink and delay of an earlier one, where the place of each earlier one is marked; its own is marked too. The
// keys of the earlier ones are compared only if it was marked before.
fn repeats_seen<'a, 'b>(
    edges: &'a [EdgeRecord],
    keys: &'a [u32],
    j: usize,
    seen: &'b mut [bool],
) -> bool
    requires j_in_bounds { j < length edges.now }
    requires keyed { Keyed edges.now j keys.now }
    requires seen_before { SeenBefore edges.now j seen.old }
    ensures value { result ≡ repeats_earlier (edges_in edges.now) j }
    ensures seen_before_2 { SeenBefore edges.now (j + 1) seen.new }
{
    let place = edge_place(edges[j]);
    if !seen[place] {
        seen[place] = true;
        return false;
    }
    repeats_earlier(edges, keys, j)
}

// 8: the first edge that repeats an earlier one.
fn check_repeats(edges: &[EdgeRecord]) -> Result<(), Fault>
    requires { length edges.now ≤ 256 }
    ensures { refusal_in result ≡ first_of (length edges.now) (repeat_refusal (edges_in edges.now)) }
{
    let mut seen = [false; 4096];
    let mut keys: [u32; 256] = [0; 256];
    for j in 0..edges.len() {
        if repeats_seen(edges, &keys, j, &mut seen) {
            return Err(Fault::RepeatedEdge(j as u32 + 1));
        }
        keys[j] = edge_key(edges[j]);
    }
    Ok(())
}

// "tasks 5; each edge 6 then 7; then 8" of a graph.
pub fn check_records<'a>(
    processor: &'a [u8],
    time: &'a [u16],
    edges: &'a [EdgeRecord],
) -> Result<(), Fault>
    requires time_len_bound { length time.now ≤ 64 }
    requires edges_bound { length edges.now ≤ 256 }
    ensures { (g : Graph) → ProcessorsOf g.tasks processor.now → TimesOf g.tasks time.now → g.syncs ≡ edges_in edges.now → refusal_in result ≡ graph_records_refusal g }
{
    check_times(time)?;
    check_edges(processor, edges)?;
    check_repeats(edges)
}

// "each edge 6; then 8" of proposed edges.
pub fn check_proposed(tasks: usize, edges: &[EdgeRecord]) -> Result<(), Fault>
    requires { length edges.now ≤ 256 }
    ensures { refusal_in result ≡ proposed_edges_refusal tasks (edges_in edges.now) }
{
    check_ends(tasks, edges)?;
    check_repeats(edges)
}
