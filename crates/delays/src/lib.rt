// Least delays, row by row, and paths by them. A row is worked out as by Bellman and Ford: a task is scanned when its entry in the row has fallen, and lowers
// the row along the ways out of it, until no entry has fallen that was not scanned. What is known of those ways stands in a square: the single steps out of
// a task, or its whole row of least delays once that is finished. What a finished row has lowered need not be scanned again.
#![tactic(auto)]

ghost use Rattle.std.specs.Prelude.{◌≡◌, true, ◌||◌, List, ◌++◌, ℕ, ◌+◌, ◌*◌, ◌≤◌, ◌<◌, min, eqb, length, get_or, drop, replicate};
ghost use Rattle.model.specs.Tasks.{Edge};
ghost use Rattle.model.specs.Compute.{present, least_delay};
ghost use Rattle.records.specs.Columns.{edges_in};
ghost use Rattle.reach.specs.Reach.{bit};
ghost use Rattle.delays.specs.Delays.{delay_row, delay_table, with_row, Fit};
ghost use Rattle.delays.specs.Rows.{RowCopied, Low, StepsOf, Known, Relaxed, Scanned, Unscanned, widened};

use layout::EdgeRecord;
use reach::{has_bit, with_bit};

// No path, in a finished row: the number that the lent list of C has there.
const NO_PATH: u16 = 65535;

// No path, while delays are worked out: above every least delay, and so small that the sum of two is below 32,768 and can be compared as a signed number.
pub const FAR: u16 = 16383;

// Places of a row of delays or counts, for as many tasks as there can be.
pub const WIDTH: usize = 64;

// Whether a path leads from one task to another, by the table of least delays.
pub fn has_path(table: &[u16], tasks: usize, from: usize, to: usize) -> bool
    requires { (tasks ≤ 64) × (from < tasks) × (to < tasks) × (length table.now ≡ tasks * tasks) }
    ensures { (es : List Edge) → Fit tasks es → table.now ≡ delay_table tasks es → result ≡ present (least_delay tasks es from to) }
{
    table[from * tasks + to] != NO_PATH
}

// The smaller of two delays below 32,768: by a signed test, for which plain x86-64 has a vector instruction.
pub fn nearer(a: u16, b: u16) -> u16
    requires { (a ≤ 32767) × (b ≤ 32767) }
    ensures { result ≡ min a b }
{
    if (b as i16) < (a as i16) { b } else { a }
}

// Takes the delay of the least edge between each two tasks into a square where no edge is yet.
pub fn take_steps(edges: &[EdgeRecord], square: &mut [u16])
    requires fit { Fit 64 (edges_in edges.now) }
    requires square_value { square.old ≡ replicate 4096 16383 }
    ensures { StepsOf (edges_in edges.now) square.new }
{
    for e in edges {
        let at = e.source as usize * WIDTH + e.sink as usize;
        square[at] = square[at].min(e.delay as u16);
    }
}

// Lowers a row to a way and what is known from there on.
fn relax(known: &[u16], start: usize, way: u16, row: &mut [u16])
    requires start_in_bounds { (start + 64 ≤ length known.now) × (way ≤ 16383) × Low row.old }
    requires by_index { (b : ℕ) → b < 64 → get_or known.now (start + b) 0 ≤ 16383 }
    ensures { Relaxed known.now start way row.old row.new }
{
    for b in 0..WIDTH {
        row[b] = nearer(row[b], way + known[start + b]);
    }
}

// Scans a task whose entry has fallen below what was seen of it.
fn scan<'a>(known: &[u16], done: u64, u: usize, row: &'a mut [u16], seen: &'a mut [u16])
    requires u_bound { (u < 64) × (u * 64 + 64 ≤ length known.now) × ((b : ℕ) → b < 64 → get_or known.now (u * 64 + b) 0 ≤ 16383) }
    requires low { Low row.old × Low seen.old × (get_or row.old u 0 < get_or seen.old u 0) }
    ensures { Scanned known.now done u row.old seen.old row.new seen.new }
{
    let way = row[u];
    seen[u] = way;
    relax(known, u * WIDTH, way, row);
    if has_bit(done, u) {
        relax(known, u * WIDTH, way, seen);
    }
}

// The first task from a number on whose entry has fallen below what was seen of it.
fn unscanned_from<'a>(row: &'a [u16], seen: &'a [u16], from: usize, tasks: usize) -> Option<usize>
    requires { (from ≤ tasks) × (tasks ≤ length row.now) × (tasks ≤ length seen.now) }
    ensures { Unscanned tasks from row.now seen.now result }
{
    (from..tasks).find(|u| row[*u] < seen[*u])
}

// The next such task, round the end.
fn next_unscanned<'a>(row: &'a [u16], seen: &'a [u16], from: usize, tasks: usize) -> Option<usize>
    requires { (from ≤ tasks) × (tasks ≤ length row.now) × (tasks ≤ length seen.now) }
    ensures { Unscanned tasks 0 row.now seen.now result }
{
    unscanned_from(row, seen, from, tasks).or_else(|| unscanned_from(row, seen, 0, tasks))
}

// An entry as a finished row has it.
fn widen(entry: u16) -> u16
    ensures { result ≡ widened entry }
{
    if entry == FAR { NO_PATH } else { entry }
}

// The first entries of a row, as many as a list has room for, as a finished row has them.
fn hand_over(row: &[u16], out: &mut [u16])
    requires { length out.old ≤ length row.now }
    ensures size { length out.new ≡ length out.old }
    ensures each { (b : ℕ) → b < length out.old → get_or out.new b 0 ≡ widened (get_or row.now b 0) }
{
    for place in 0..out.len() {
        out[place] = widen(row[place]);
    }
}

// The row of task a: the least delays from it to each task, whatever the row held before. The word says which rows of the square are finished.
fn least_row(known: &[u16], done: u64, a: usize, row: &mut [u16])
    requires a_in_bounds { a < length row.old }
    requires known { (es : List Edge) × Known (length row.old) es done known.now }
    ensures { (es : List Edge) → Known (length row.old) es done known.now → row.new ≡ delay_row (length row.old) es a }
{
    let start = a * WIDTH;
    let mut lowered = [FAR; WIDTH];
    let mut seen = [FAR; WIDTH];
    lowered.copy_from_slice(&known[start..start + WIDTH]);
    let mut from = a + 1;
    while let Some(u) = next_unscanned(&lowered, &seen, from, row.len()) {
        scan(known, done, u, &mut lowered, &mut seen);
        from = u + 1;
    }
    hand_over(&lowered, row);
}

// Keeps the finished row of task a in the square. Gives which rows of the square are finished then.
fn keep_row(row: &[u16], done: u64, a: usize, known: &mut [u16]) -> u64
    requires { (a < length row.now) × ((es : List Edge) × Known (length row.now) es done known.old) }
    ensures done { (b : ℕ) → bit result b ≡ bit done b || eqb a b }
    ensures known { (es : List Edge) → Known (length row.now) es done known.old → row.now ≡ delay_row (length row.now) es a → Known (length row.now) es result known.new }
{
    let at = a * WIDTH;
    for (b, delay) in row.iter().enumerate() {
        known[at + b] = (*delay).min(FAR);
    }
    with_bit(done, a)
}

// Makes the row of task a, whatever it held before, and keeps it in the square. Gives which rows of the square are finished then.
fn make_row<'a>(done: u64, a: usize, known: &'a mut [u16], row: &'a mut [u16]) -> u64
    requires { (a < length row.old) × ((es : List Edge) × Known (length row.old) es done known.old) }
    ensures done { (b : ℕ) → bit result b ≡ bit done b || eqb a b }
    ensures row { (es : List Edge) → Known (length row.old) es done known.old → row.new ≡ delay_row (length row.old) es a }
    ensures known { (es : List Edge) → Known (length row.old) es done known.old → Known (length row.old) es result known.new }
{
    least_row(known, done, a, row);
    keep_row(row, done, a, known)
}

// Makes the row of task a in the square, unless it is finished. Gives which rows of the square are finished then.
pub fn finish_row(a: usize, tasks: usize, done: u64, known: &mut [u16]) -> u64
    requires { (a < tasks) × ((es : List Edge) × Known tasks es done known.old) }
    ensures done { bit result a ≡ true }
    ensures known { (es : List Edge) → Known tasks es done known.old → Known tasks es result known.new }
{
    if has_bit(done, a) {
        return done;
    }
    let mut row = [0; WIDTH];
    make_row(done, a, known, &mut row[..tasks])
}

// Makes row a of a table, in its part of the list. Gives which rows of the square are finished then.
fn fill_row<'a>(
    a: usize,
    tasks: usize,
    done: u64,
    known: &'a mut [u16],
    table: &'a mut [u16],
) -> u64
    requires { (a < tasks) × (tasks * tasks ≤ length table.old) × ((es : List Edge) × Known tasks es done known.old) }
    ensures row { (es : List Edge) → Known tasks es done known.old → table.new ≡ with_row tasks es a table.old }
    ensures known { (es : List Edge) → Known tasks es done known.old → Known tasks es result known.new }
{
    let at = a * tasks;
    let end = at + tasks;
    make_row(done, a, known, &mut table[at..end])
}

// The least delays from each task to each, row by row at the front of a list, each row finished before the next is begun; elements past them keep what they
// held. The last task's row comes first: edges on a processor lead to later tasks, whose rows then serve.
pub fn least_table(edges: &[EdgeRecord], tasks: usize, table: &mut [u16])
    requires tasks_bound { (tasks ≤ 64) × (tasks * tasks ≤ length table.old) }
    requires fit { Fit tasks (edges_in edges.now) }
    ensures { table.new ≡ delay_table tasks (edges_in edges.now) ++ drop (tasks * tasks) table.old }
{
    let mut known = [FAR; 4096];
    take_steps(edges, &mut known);
    let mut done = 0;
    for a in (0..tasks).rev() {
        done = fill_row(a, tasks, done, &mut known, table);
    }
}
