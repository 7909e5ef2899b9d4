// The call for the earliest timetable of a graph. It asks nothing of its caller; a refused one leaves the lent list as it was.
#![tactic(auto)]

ghost use Rattle.std.specs.Prelude.{◌≡◌, length};
ghost use Rattle.files.specs.Refusals.{refusal_in};
ghost use Rattle.acceptance.specs.Outcomes.{outcome};
ghost use Rattle.timetable.specs.Timetable.{turns_refusal, timetable_refusal, timetable_after};

use acceptance::{Outcome, accept, check_room};
use files::Fault;
use starts::turns_into;

// The earliest starts at the estimated times in turns 1 to `turns`, turn by turn at the front of the list, tasks in order.
pub fn timetable(graph: &[u8], turns: usize, starts: &mut [u32]) -> Outcome
    ensures outcome { result ≡ outcome (timetable_refusal graph.now turns (length starts.old)) }
    ensures starts { starts.new ≡ timetable_after graph.now turns starts.old }
{
    write_starts(graph, turns, starts).into()
}

// Writes the starts, or nothing where something is refused.
fn write_starts(graph: &[u8], turns: usize, starts: &mut [u32]) -> Result<(), Fault>
    ensures refusal { refusal_in result ≡ timetable_refusal graph.now turns (length starts.old) }
    ensures starts { starts.new ≡ timetable_after graph.now turns starts.old }
{
    check_turns(turns)?;
    let accepted = accept(graph)?;
    let reading = &accepted.reading;
    let tasks = reading.tasks as usize;
    check_room(tasks * turns, starts.len())?;
    let end = tasks + reading.edges as usize;
    turns_into(
        &reading.ordering[0..end],
        &reading.time[0..tasks],
        turns,
        starts,
    );
    Ok(())
}

// 17, for any number of turns.
fn check_turns(turns: usize) -> Result<(), Fault>
    ensures { refusal_in result ≡ turns_refusal turns }
{
    if !(1..=64).contains(&turns) {
        return Err(Fault::TurnsOutside);
    }
    Ok(())
}
