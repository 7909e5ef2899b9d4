// The best candidate of a step of the plan: the pair of tasks that subsumes most edges.
#![tactic(auto)]

ghost use Rattle.std.specs.Prelude.{◌≡◌, ◌⊎◌, false, List, ℕ, ◌+◌, ◌*◌, ◌≤◌, ◌<◌, min, length, MatchOption};
ghost use Rattle.model.specs.Tasks.{Edge};
ghost use Rattle.delays.specs.Delays.{delay_table};
ghost use Rattle.candidates.specs.Candidates.{count_table, worth_in, BestPair, NoPair};
ghost use Rattle.candidates.specs.Searches.{worth_counted, gain_of, BestSoFar, units_of, SmallRow, UnitRow, RowFew};

use delays::{FAR, WIDTH};

// A pair of tasks and how many edges it subsumes.
#[derive(Clone, Copy)]
pub struct Pair {
    pub gain: u32,
    pub source: u32,
    pub sink: u32,
}

// Where numbers are cut: the largest that fits a signed test.
const LAST: u32 = 32767;

// Sets the entry from each task to itself to 0.
pub fn zero_diagonal(table: &mut [u16], tasks: usize)
    requires { (tasks ≤ 64) × (length table.old ≡ tasks * tasks) }
    ensures { (es : List Edge) → table.old ≡ delay_table tasks es → table.new ≡ count_table tasks es }
{
    for v in 0..tasks {
        table[v * tasks + v] = 0;
    }
}

// A number, cut at 32,767.
fn capped(x: u32) -> u16
    ensures { result ≡ min x 32767 }
{
    x.min(LAST) as u16
}

// A time in units of a power of two, cut at 32,767.
fn units(time: u32, power: u32) -> u16
    requires { power < 32 }
    ensures { result ≡ units_of power time }
{
    capped(time >> power)
}

// Writes times in units to the first places of a row.
fn unit_row(times: &[u32], power: u32, row: &mut [u16])
    requires { (power < 32) × (length times.now ≤ 64) × (length row.old ≡ 64) × SmallRow row.old }
    ensures { UnitRow times.now power (length times.now) row.new }
{
    for (b, time) in times.iter().enumerate() {
        row[b] = units(*time, power);
    }
}

// 1 if a count exceeds a number, no path leads back, and a source does not end after the latest start of the sink, else 0. Times are compared by a
// signed test, for which plain x86-64 has a vector instruction; a number, since 64 of them are added up so.
fn exceeds(count: u16, least: u16, back: u16, end: u16, latest: u16) -> u16
    requires { (end ≤ 32767) × (latest ≤ 32767) }
    ensures few { result ≤ 1 }
    ensures none { result ≡ 0 → back ≡ 16383 → end ≤ latest → count ≤ least }
{
    if back == FAR && (end as i16) <= (latest as i16) && least < count {
        1
    } else {
        0
    }
}

// How many counts of a row exceed a number, without a path back and in time by times in units.
fn exceeding<'a>(
    counts: &'a [u16],
    to: &'a [u16],
    start: usize,
    least: u16,
    end: u16,
    latest: &'a [u16],
) -> u16
    requires start_bound { (start + 64 ≤ 4096) × (start + 64 ≤ length counts.now) × (start + 64 ≤ length to.now) × (length latest.now ≡ 64) }
    requires end_bound { (end ≤ 32767) × SmallRow latest.now }
    ensures { result ≡ 0 → RowFew counts.now to.now start least end latest.now 64 }
{
    let mut many = 0;
    for b in 0..WIDTH {
        many += exceeds(counts[start + b], least, to[start + b], end, latest[b]);
    }
    many
}

// Whether a row may have a better pair: times are compared in units of 1 if the source's end is not cut, else of 256.
fn may_exceed<'a>(
    counts: &'a [u16],
    to: &'a [u16],
    start: usize,
    least: u16,
    end: u32,
    fine: &'a [u16],
    coarse: &'a [u16],
) -> bool
    requires start_bound { (start + 64 ≤ 4096) × (start + 64 ≤ length counts.now) × (start + 64 ≤ length to.now) × (length fine.now ≡ 64) × (length coarse.now ≡ 64) }
    requires small_row { SmallRow fine.now × SmallRow coarse.now }
    ensures { result ≡ false → RowFew counts.now to.now start least (units_of 0 end) fine.now 64 ⊎ RowFew counts.now to.now start least (units_of 8 end) coarse.now 64 }
{
    if end <= LAST {
        return exceeding(counts, to, start, least, units(end, 0), fine) != 0;
    }
    exceeding(counts, to, start, least, units(end, 8), coarse) != 0
}

// What a better pair has to be worth more than. One edge is not enough.
fn least_gain(best: Option<Pair>) -> u32
    ensures { result ≡ gain_of best }
{
    best.map_or(1, |pair| pair.gain)
}

// The best of the pairs out of task `a`, by the counts for their sinks, if it is better than the best before, else that one; `back` has the
// delays back to `a`.
fn best_counted<'a>(
    counts: &'a [u16],
    back: &'a [u16],
    end: u32,
    latest: &'a [u32],
    a: usize,
    before: Option<Pair>,
) -> Option<Pair>
    requires { (length back.now ≤ 64) × (length counts.now ≡ 64) × (length latest.now ≡ length back.now) × (a < length back.now) }
    ensures { (worth : ℕ → ℕ → ℕ) → ((b : ℕ) → b < length back.now → worth a b ≡ worth_counted back.now end latest.now counts.now b) → BestSoFar (length back.now) worth a 0 before → BestSoFar (length back.now) worth a (length back.now) result }
{
    let mut best = before;
    for b in 0..back.len() {
        let gain = u32::from(counts[b]);
        if least_gain(best) < gain && back[b] == FAR && end <= latest[b] {
            best = Some(Pair {
                gain,
                source: a as u32,
                sink: b as u32,
            });
        }
    }
    best
}

// The pair that subsumes most edges, by the counts of all pairs, of those without a path back whose source ends by the time its sink has to
// start: the first by source and then by sink; none if no such pair subsumes two. `to[a * 64 + b]` is the delay from b to a. Rows that cannot have a
// better pair are passed over.
pub fn best_pair<'a>(
    counts: &'a [u16],
    to: &'a [u16],
    end: &'a [u32],
    latest: &'a [u32],
    tasks: usize,
) -> Option<Pair>
    requires { (tasks ≤ 64) × (tasks * 64 ≤ length counts.now) × (tasks * 64 ≤ length to.now) × (length end.now ≡ tasks) × (length latest.now ≡ tasks) }
    ensures { let worth = worth_in counts.now to.now end.now latest.now in MatchOption result (NoPair tasks worth) (λ pair. (2 ≤ pair.gain) × BestPair tasks worth pair.gain pair.source pair.sink) }
{
    let mut fine = [0; WIDTH];
    let mut coarse = [0; WIDTH];
    unit_row(latest, 0, &mut fine);
    unit_row(latest, 8, &mut coarse);
    let mut best = None;
    for a in 0..tasks {
        let start = a * WIDTH;
        let least = capped(least_gain(best));
        if may_exceed(counts, to, start, least, end[a], &fine, &coarse) {
            best = best_counted(
                &counts[start..start + WIDTH],
                &to[start..start + tasks],
                end[a],
                latest,
                a,
                best,
            );
        }
    }
    best
}
