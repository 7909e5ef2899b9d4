// Least delays in rows of 64 numbers, 16,383 where there is no path, and how they fall when a pair of tasks is joined by an edge of delay 0.
#![tactic(auto)]

ghost use Rattle.std.specs.Prelude.{◌≡◌, ℕ, ◌+◌, ◌*◌, ◌≤◌, ◌<◌, length};
ghost use Rattle.records.specs.Columns.{at};
ghost use Rattle.updates.specs.Updates.{Small, LineSpread, Spread, RowFell, RowLowered, RowsJoined};

use delays::{FAR, WIDTH, nearer};

// No entry fell: above every entry, and the largest number that fits a signed test. No Option: the least of 64 numbers is to be found by vector instructions.
const NO_FALL: u16 = 32767;

// A number if it fell below what it was, else one above all delays.
fn fallen(before: u16, after: u16) -> u16
    requires { (before ≤ 32767) × (after ≤ 32767) }
    ensures same { before ≤ after → result ≡ 32767 }
    ensures less { after < before → result ≡ after }
{
    if (after as i16) < (before as i16) {
        after
    } else {
        NO_FALL
    }
}

// Copies one line of a table: entries that stand a step apart, cut at 16,383, one after the other.
fn spread_line(
    table: &[u16],
    first: usize,
    step: usize,
    tasks: usize,
    start: usize,
    lines: &mut [u16],
)
    requires tasks_bound { (tasks ≤ 64) × (start + 64 ≤ length lines.old) × (start ≤ 4096) }
    requires first_bound { (first ≤ 4096) × (step ≤ 64) × ((b : ℕ) → b < tasks → first + b * step < length table.now) }
    ensures { LineSpread table.now first step start tasks lines.old lines.new }
{
    for b in 0..tasks {
        lines[start + b] = table[first + b * step].min(FAR);
    }
}

// Copies a table of delays line by line into rows of 64 numbers, cut at 16,383: its rows if lines are a row apart and entries are neighbours, its
// columns the other way round.
pub fn spread(table: &[u16], outer: usize, inner: usize, tasks: usize, lines: &mut [u16])
    requires tasks_bound { (tasks ≤ 64) × (outer ≤ 64) × (inner ≤ 64) × (tasks * 64 ≤ length lines.old) × Small lines.old }
    requires by_index { (a b : ℕ) → a < tasks → b < tasks → a * outer + b * inner < length table.now }
    ensures { Spread table.now outer inner tasks lines.new }
{
    for a in 0..tasks {
        spread_line(table, a * outer, inner, tasks, a * WIDTH, lines);
    }
}

// Lowers a row of 64 numbers to a way and the numbers of another row after it. Gives the least of those that fell, 32,767 if none did.
fn lower_row(way: u16, onward: &[u16], start: usize, rows: &mut [u16]) -> u16
    requires way_bound { (way ≤ 16383) × (length onward.now ≡ 64) × ((y : ℕ) → y < 64 → at onward.now y ≤ 16383) }
    requires start_in_bounds { (start + 64 ≤ length rows.old) × (start ≤ 4096) × ((y : ℕ) → y < 64 → at rows.old (start + y) ≤ 16383) }
    ensures { RowFell way onward.now start 64 rows.old rows.new result }
{
    let mut least = NO_FALL;
    for y in 0..WIDTH {
        let before = rows[start + y];
        let after = nearer(before, way + onward[y]);
        least = nearer(least, fallen(before, after));
        rows[start + y] = after;
    }
    least
}

// Row x as it is with an edge of delay 0 more, into a list of its own: its numbers fall to its own for the task `near` and those of row `far` after it. Rows
// by source are lowered by the edge's source and sink, rows by sink the other way round. Gives the least of the numbers that fell, 32,767 if none did.
pub fn lowered(rows: &[u16], x: usize, near: usize, far: usize, row: &mut [u16]) -> u16
    requires { (x < 64) × (near < 64) × (far < 64) × (x * 64 + 64 ≤ length rows.now) × (far * 64 + 64 ≤ length rows.now) × (length row.old ≡ 64) × Small rows.now }
    ensures { RowLowered near far rows.now x row.new result }
{
    let start = x * WIDTH;
    let first = far * WIDTH;
    row.copy_from_slice(&rows[start..start + WIDTH]);
    lower_row(rows[start + near], &rows[first..first + WIDTH], 0, row)
}

// All rows as they are with an edge of delay 0 more, in their place.
pub fn join_rows(rows: &mut [u16], tasks: usize, near: usize, far: usize)
    requires { (tasks ≤ 64) × (near < 64) × (far < tasks) × (tasks * 64 ≤ length rows.old) × Small rows.old }
    ensures { RowsJoined near far tasks rows.old rows.new }
{
    let first = far * WIDTH;
    let mut onward = [0; WIDTH];
    onward.copy_from_slice(&rows[first..first + WIDTH]);
    for x in 0..tasks {
        let start = x * WIDTH;
        let way = rows[start + near];
        if way != FAR {
            lower_row(way, &onward, start, rows);
        }
    }
}
