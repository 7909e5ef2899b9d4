// The call for the least delays of a graph. It asks nothing of its caller; a refused one leaves the lent list as it was.
#![tactic(auto)]

ghost use Rattle.std.specs.Prelude.{◌≡◌, length};
ghost use Rattle.files.specs.Refusals.{refusal_in};
ghost use Rattle.acceptance.specs.Outcomes.{outcome};
ghost use Rattle.least_delays.specs.LeastDelays.{delays_refusal, delays_after};

use acceptance::{Outcome, accept, check_room};
use delays::least_table;
use files::Fault;

// The least delay from each task to each, row by row at the front of the list, 65,535 where there is no path.
pub fn least_delays(graph: &[u8], table: &mut [u16]) -> Outcome
    ensures outcome { result ≡ outcome (delays_refusal graph.now (length table.old)) }
    ensures table { table.new ≡ delays_after graph.now table.old }
{
    write_delays(graph, table).into()
}

// Writes the table, or nothing where something is refused.
fn write_delays(graph: &[u8], table: &mut [u16]) -> Result<(), Fault>
    ensures refusal { refusal_in result ≡ delays_refusal graph.now (length table.old) }
    ensures table { table.new ≡ delays_after graph.now table.old }
{
    let accepted = accept(graph)?;
    let reading = &accepted.reading;
    let tasks = reading.tasks as usize;
    check_room(tasks * tasks, table.len())?;
    let end = tasks + reading.edges as usize;
    least_table(&reading.ordering[0..end], tasks, table);
    Ok(())
}
