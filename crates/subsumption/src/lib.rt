// How many edges of a stage of the plan each pair of tasks subsumes, kept from step to step: row a of the counts has those of the pairs out of task a.
// Delays stand in rows of 64 numbers, `from` by the task they lead from, `to` by the task they lead to. An edge is counted by its limit, which is one
// above its delay: for each pair for which the delay from its source to the pair's, and from the pair's sink to its own, add up to less. Delays are
// at most 16,383, so that a signed test may compare them. Most rows of counts change by the same tests of a row of delays: these are worked out once, as
// a row of ones and zeros, and again only when the limit is another.
#![tactic(auto)]

ghost use Rattle.std.specs.Prelude.{◌≡◌, true, false, not, List, ℕ, ◌+◌, ◌-◌, ◌*◌, ◌≤◌, ◌<◌, leb, length};
ghost use Rattle.model.specs.Lists.{counted, keep};
ghost use Rattle.model.specs.Tasks.{Ends};
ghost use Rattle.model.specs.Plan.{with_pair};
ghost use Rattle.records.specs.Columns.{at, edge_of, edges_in};
ghost use Rattle.updates.specs.Updates.{Small, lower_at, Lowers, RowsJoined};
ghost use Rattle.subsumption.specs.Subsumption.{subsumes_by, row_at, Still, LeftRow, BelowRow, RowShifted, EdgeShifted, Covered, SameTests, CountsOf};

use delays::WIDTH;
use layout::EdgeRecord;
use updates::{join_rows, lowered};

// The delays between the tasks of a stage, row by row.
#[derive(Clone, Copy)]
struct Delays<'a> {
    from: &'a [u16],
    to: &'a [u16],
    tasks: usize,
}

// What an edge is counted by: a row of delays from its source, a row of delays to its sink and a limit. It is not counted by a limit of 0.
#[derive(Clone, Copy)]
struct EdgeRows<'a> {
    from: &'a [u16],
    to: &'a [u16],
    limit: u16,
}

// 1 if a number is below a limit, else 0: by a signed test, for which plain x86-64 has a vector instruction.
fn below(x: u16, limit: u16) -> u16
    requires { (x ≤ 32767) × (limit ≤ 32767) }
    ensures { result ≡ counted (leb (x + 1) limit) 1 }
{
    u16::from((x as i16) < (limit as i16))
}

// Whether a row of counts has to be looked at: not if as much is left as before, and no more than the least of the other delays that fell.
fn moves(old: u16, new: u16, fell: u16) -> bool
    ensures { result ≡ false → Still fell old new }
{
    old != new || fell < new
}

// Whether two numbers are above a third.
fn both_above(most: u16, x: u16, y: u16) -> bool
    ensures { result ≡ true → (most < x) × (most < y) }
{
    most < x && most < y
}

// Whether the pair (a, b) subsumes an edge.
pub fn is_subsumed<'a>(from: &'a [u16], to: &'a [u16], a: usize, b: usize, e: EdgeRecord) -> bool
    requires { (a < 64) × (b < 64) × (e.source * 64 + a < length from.now) × (e.sink * 64 + b < length to.now) }
    ensures { result ≡ subsumes_by from.now to.now a b (edge_of e) }
{
    let before = from[e.source as usize * WIDTH + a] as u32;
    let after = to[e.sink as usize * WIDTH + b] as u32;
    before + after <= e.delay as u32
}

// The limit of an edge when the pair (a, b) is added: 0 if the pair subsumes it.
fn limit_after<'a>(before: Delays<'a>, a: usize, b: usize, e: EdgeRecord) -> u16
    requires { (a < 64) × (b < 64) × (e.source * 64 + a < length before.from.now) × (e.sink * 64 + b < length before.to.now) }
    ensures { result ≡ counted (not (subsumes_by before.entry.from.now before.entry.to.now a b (edge_of e))) (e.delay + 1) }
{
    if is_subsumed(before.from, before.to, a, b, e) {
        0
    } else {
        e.delay as u16 + 1
    }
}

// What each delay of a row leaves of a limit: nothing if it reaches the limit.
fn left_row(delays: &[u16], limit: u16, left: &mut [u16])
    requires { (length delays.now ≡ 64) × (length left.old ≡ 64) }
    ensures { LeftRow delays.now limit 64 left.new }
{
    for a in 0..WIDTH {
        left[a] = limit.saturating_sub(delays[a]);
    }
}

// Tests a row of delays: 1 for each that is below a limit, else 0.
fn row_below(delays: &[u16], limit: u16, row: &mut [u16])
    requires { (length delays.now ≡ 64) × (limit ≤ 32767) × (length row.old ≡ 64) × Small delays.now }
    ensures { BelowRow delays.now limit 64 row.new }
{
    for b in 0..WIDTH {
        row[b] = below(delays[b], limit);
    }
}

// Turns the row of tests by the limit `last` into the one by `limit`: mostly the two are the same, and nothing is to be done.
fn renew_row(delays: &[u16], last: u16, limit: u16, row: &mut [u16])
    requires { (length delays.now ≡ 64) × (limit ≤ 32767) × Small delays.now × BelowRow delays.now last 64 row.old }
    ensures { BelowRow delays.now limit 64 row.new }
{
    if limit != last {
        row_below(delays, limit, row);
    }
}

// Adds a row of tests to a row of counts, and takes another off.
fn exchange_row<'a>(more: &'a [u16], less: &'a [u16], place: usize, counts: &mut [u16])
    requires more_len { (length more.now ≡ 64) × (length less.now ≡ 64) × (place + 64 ≤ length counts.old) × (place ≤ 4096) }
    requires by_index { (b : ℕ) → b < 64 → (at more.now b ≤ 1) × (at less.now b ≤ at counts.old (place + b)) × (at counts.old (place + b) ≤ 256) }
    ensures { RowShifted (λ b. at less.now b) (λ b. at more.now b) place 64 counts.old counts.new }
{
    for b in 0..WIDTH {
        counts[place + b] = counts[place + b] + more[b] - less[b];
    }
}

// Counts an edge by other rows and another limit than it was counted by. The delays to its sink pass the same tests in both rows by limits up to `fell`.
fn shift_edge<'a>(
    was: EdgeRows<'a>,
    next: EdgeRows<'a>,
    fell: u16,
    tasks: usize,
    counts: &mut [u16],
)
    requires from_len { (length was.from.now ≡ 64) × (length was.to.now ≡ 64) × (length next.from.now ≡ 64) × (length next.to.now ≡ 64) × Small was.to.now × Small next.to.now }
    requires limit_bound { (was.limit ≤ 32767) × (next.limit ≤ 32767) × (tasks ≤ 64) × (tasks * 64 ≤ length counts.old) × SameTests (at was.to.now) (at next.to.now) fell }
    requires covered { Covered (at was.from.now) (at was.to.now) was.limit tasks counts.old }
    ensures { EdgeShifted (at was.entry.from.now) (at was.entry.to.now) (at next.entry.from.now) (at next.entry.to.now) was.entry.limit next.entry.limit tasks counts.old counts.new }
{
    let mut old = [0; WIDTH];
    let mut new = [0; WIDTH];
    left_row(was.from, was.limit, &mut old);
    left_row(next.from, next.limit, &mut new);
    let mut more = [0; WIDTH];
    let mut less = [0; WIDTH];
    let mut last = 0;
    let mut next_last = 0;
    for a in 0..tasks {
        let before = old[a];
        let after = new[a];
        if moves(before, after, fell) {
            renew_row(was.to, last, before, &mut less);
            renew_row(next.to, next_last, after, &mut more);
            last = before;
            next_last = after;
            exchange_row(&more, &less, a * WIDTH, counts);
        }
    }
}

// Counts an edge that was not counted yet, by its limit.
fn count_edge<'a>(delays: Delays<'a>, source: usize, sink: usize, limit: u16, counts: &mut [u16])
    requires tasks_in_bounds { (delays.tasks * 64 ≤ length delays.from.now) × (delays.tasks * 64 ≤ length delays.to.now) × (delays.tasks * 64 ≤ length counts.old) × Small delays.to.now }
    requires tasks_bound { (delays.tasks ≤ 64) × (source < delays.tasks) × (sink < delays.tasks) × (limit ≤ 32767) × Covered (row_at delays.from.now source) (row_at delays.to.now sink) 0 delays.tasks counts.old }
    ensures { EdgeShifted (row_at delays.entry.from.now source) (row_at delays.entry.to.now sink) (row_at delays.entry.from.now source) (row_at delays.entry.to.now sink) 0 limit delays.entry.tasks counts.old counts.new }
{
    let s = source * WIDTH;
    let t = sink * WIDTH;
    let rows = EdgeRows {
        from: &delays.from[s..s + WIDTH],
        to: &delays.to[t..t + WIDTH],
        limit: 0,
    };
    shift_edge(
        rows,
        EdgeRows { limit, ..rows },
        limit,
        delays.tasks,
        counts,
    );
}

// Counts the edges of a stage, by counts of 0.
pub fn count_edges<'a>(
    edges: &'a [EdgeRecord],
    from: &'a [u16],
    to: &'a [u16],
    tasks: usize,
    counts: &mut [u16],
)
    requires edges_bound { length edges.now ≤ 256 }
    requires tasks_in_bounds { (tasks * 64 ≤ length from.now) × (tasks * 64 ≤ length to.now) × (tasks * 64 ≤ length counts.old) }
    requires tasks_bound { (tasks ≤ 64) × Ends tasks (edges_in edges.now) }
    requires small { Small to.now × ((i : ℕ) → at counts.old i ≡ 0) }
    ensures { CountsOf tasks from.now to.now (edges_in edges.now) counts.new }
{
    let delays = Delays { from, to, tasks };
    for e in edges {
        let limit = e.delay as u16 + 1;
        count_edge(delays, e.source as usize, e.sink as usize, limit, counts);
    }
}

// Counts one edge anew for the pair (a, b) that is added, by the delays before it and its source's and sink's rows of those after it: no more if the pair
// subsumes it. It is passed over if no delay that matters to it falls: none does where the ways to the pair are longer than the edge's delay.
fn shift_one<'a>(before: Delays<'a>, a: usize, b: usize, e: EdgeRecord, counts: &mut [u16])
    requires tasks_in_bounds { (before.tasks * 64 ≤ length before.from.now) × (before.tasks * 64 ≤ length before.to.now) × (before.tasks * 64 ≤ length counts.old) × Small before.from.now × Small before.to.now }
    requires tasks_bound { (before.tasks ≤ 64) × (a < before.tasks) × (b < before.tasks) × (e.source < before.tasks) × (e.sink < before.tasks) }
    requires covered { Covered (row_at before.from.now e.source) (row_at before.to.now e.sink) (e.delay + 1) before.tasks counts.old }
    ensures { EdgeShifted (row_at before.entry.from.now e.source) (row_at before.entry.to.now e.sink) (lower_at a b before.entry.from.now e.source) (lower_at b a before.entry.to.now e.sink) (e.delay + 1) (counted (not (subsumes_by before.entry.from.now before.entry.to.now a b (edge_of e))) (e.delay + 1)) before.entry.tasks counts.old counts.new }
{
    let most = e.delay as u16;
    let s = e.source as usize * WIDTH;
    let t = e.sink as usize * WIDTH;
    if both_above(most, before.from[s + a], before.to[t + b]) {
        return;
    }
    let mut next_from = [0; WIDTH];
    let mut next_to = [0; WIDTH];
    let fell_from = lowered(before.from, e.source as usize, a, b, &mut next_from);
    let fell_to = lowered(before.to, e.sink as usize, b, a, &mut next_to);
    let limit = limit_after(before, a, b, e);
    if limit != 0 && both_above(most, fell_from, fell_to) {
        return;
    }
    let was = EdgeRows {
        from: &before.from[s..s + WIDTH],
        to: &before.to[t..t + WIDTH],
        limit: most + 1,
    };
    let next = EdgeRows {
        from: &next_from,
        to: &next_to,
        limit,
    };
    shift_edge(was, next, fell_to, before.tasks, counts);
}

// Counts the edges of a stage anew for the pair (a, b) that is added: by the delays before it, those that it leaves are counted by the delays after it.
fn shift_edges<'a>(
    edges: &'a [EdgeRecord],
    before: Delays<'a>,
    a: usize,
    b: usize,
    counts: &mut [u16],
)
    requires edges_bound { length edges.now ≤ 256 }
    requires tasks_in_bounds { (before.tasks * 64 ≤ length before.from.now) × (before.tasks * 64 ≤ length before.to.now) × Small before.from.now × Small before.to.now }
    requires tasks_bound { (before.tasks ≤ 64) × (a < before.tasks) × (b < before.tasks) × Ends before.tasks (edges_in edges.now) }
    requires counts_of { CountsOf before.tasks before.from.now before.to.now (edges_in edges.now) counts.old }
    ensures { (from' to' : List ℕ) → Lowers a b before.entry.tasks before.entry.from.now from' → Lowers b a before.entry.tasks before.entry.to.now to' → CountsOf before.entry.tasks from' to' (keep (λ e. not (subsumes_by before.entry.from.now before.entry.to.now a b e)) (edges_in edges.now)) counts.new }
{
    for e in edges {
        shift_one(before, a, b, *e, counts);
    }
}

// Adds the pair (a, b) to delays and counts of a stage: what the pair subsumes is dropped, delays fall to the way to a and the way from b on, and the pair's
// own edge is counted last.
pub fn add_pair<'a, 'b>(
    edges: &'a [EdgeRecord],
    tasks: usize,
    a: usize,
    b: usize,
    from: &'b mut [u16],
    to: &'b mut [u16],
    counts: &'b mut [u16],
)
    requires edges_bound { length edges.now ≤ 256 }
    requires tasks_in_bounds { (tasks * 64 ≤ length from.old) × (tasks * 64 ≤ length to.old) × Small from.old × Small to.old }
    requires tasks_bound { (tasks ≤ 64) × (a < tasks) × (b < tasks) × Ends tasks (edges_in edges.now) }
    requires counts_of { CountsOf tasks from.old to.old (edges_in edges.now) counts.old }
    ensures delays { RowsJoined a b tasks from.old from.new × RowsJoined b a tasks to.old to.new }
    ensures counts { CountsOf tasks from.new to.new (with_pair (keep (λ e. not (subsumes_by from.old to.old a b e)) (edges_in edges.now)) a b) counts.new }
{
    let before = Delays { from, to, tasks };
    shift_edges(edges, before, a, b, counts);
    join_rows(from, tasks, a, b);
    join_rows(to, tasks, b, a);
    count_edge(Delays { from, to, tasks }, a, b, 1, counts);
}
