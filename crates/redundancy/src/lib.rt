// Which synchronization edges are redundant. Edge (s, t, d) is, exactly if a path from s to t has less delay than d, or a path from s to the source of an
// edge to t has, with that edge, at most d. The edge itself does not count as that last edge: a cycle from s to s has delay 1 at least.
// So a row of least delays out of s and a row of last steps to t are added, entry by entry, and the least sum is held to d.
#![tactic(auto)]

ghost use Rattle.std.specs.Prelude.{◌≡◌, ℕ, ◌+◌, ◌≤◌, ◌<◌, map, length, get_or, replicate};
ghost use Rattle.records.specs.Columns.{edges_in};
ghost use Rattle.delays.specs.Delays.{delay_table, Fit};
ghost use Rattle.delays.specs.Rows.{StepsOf};
ghost use Rattle.marks.specs.Marks.{marks_of};
ghost use Rattle.redundancy.specs.Redundancy.{redundant_in, turned, Apart, Tabled, LeastSum};

use delays::{FAR, WIDTH, nearer};
use layout::EdgeRecord;
use marks::Marks;

// Takes the delay of the least edge between each two tasks into a square where no edge is yet, the edges turned round: row t has the last steps to task t.
fn take_last_steps(edges: &[EdgeRecord], square: &mut [u16])
    requires fit { Fit 64 (edges_in edges.now) }
    requires square_value { square.old ≡ replicate 4096 16383 }
    ensures { StepsOf (edges_in (map turned edges.now)) square.new }
{
    for e in edges {
        let at = e.sink as usize * WIDTH + e.source as usize;
        square[at] = square[at].min(e.delay as u16);
    }
}

// The least of the sums of a row of least delays and a row of last steps, FAR where none is less.
fn least_sum<'a>(table: &'a [u16], from: usize, last: &'a [u16], to: usize, tasks: usize) -> u16
    requires { (from + tasks ≤ length table.now) × (to + tasks ≤ length last.now) × ((u : ℕ) → u < tasks → get_or last.now (to + u) 0 ≤ 16383) }
    ensures { LeastSum table.now from last.now to tasks result }
{
    let mut least = FAR;
    for u in 0..tasks {
        let sum = table[from + u].min(FAR) + last[to + u];
        least = nearer(least, sum);
    }
    least
}

// Whether edge `own` is redundant.
fn is_redundant<'a>(
    edges: &'a [EdgeRecord],
    table: &'a [u16],
    tasks: usize,
    last: &'a [u16],
    own: usize,
) -> bool
    requires own_in_bounds { own < length edges.now }
    requires tabled { Tabled tasks edges.now table.now last.now }
    ensures { (i : ℕ) → own ≡ tasks + i → result ≡ redundant_in tasks (edges_in edges.now) i }
{
    let e = edges[own];
    let from = e.source as usize * tasks;
    let to = e.sink as usize;
    let most = e.delay as u16;
    table[from + to] < most || least_sum(table, from, last, to * WIDTH, tasks) <= most
}

// The marks of the redundant edges among those behind the first `tasks`, which are the processors'. There must be no cycle of delay 0.
pub fn redundant_marks<'a>(edges: &'a [EdgeRecord], table: &'a [u16], tasks: usize) -> Marks
    requires tasks_bound { (tasks ≤ 64) × (length edges.now ≤ 320) }
    requires fit { Fit tasks (edges_in edges.now) }
    requires apart { Apart tasks (edges_in edges.now) }
    requires table_value { table.now ≡ delay_table tasks (edges_in edges.now) }
    ensures { result ≡ marks_of (redundant_in tasks (edges_in edges.now)) }
{
    let mut last = [FAR; 4096];
    take_last_steps(edges, &mut last);
    // There are 256 marks, the first of each word its most significant bit.
    let count = edges.len().saturating_sub(tasks).min(256);
    let mut words = [0; 4];
    for i in 0..count {
        if is_redundant(edges, table, tasks, &last, tasks + i) {
            words[i / 64] |= 1 << (63 - i % 64);
        }
    }
    Marks { words }
}
