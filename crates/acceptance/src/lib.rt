// The entry of every call: a graph file judged up to 12 and handed over by value, refusal 16 of a list too short, and the outcome that a call tells.
#![tactic(auto)]

ghost use Rattle.std.specs.Prelude.{◌≡◌, not, ◌&&◌, ◌≤◌, ◌<◌, eqb, length};
ghost use Rattle.model.specs.Compute.{latency};
ghost use Rattle.records.specs.Columns.{edges_in, at};
ghost use Rattle.files.specs.Refusals.{refusal_of, refusal_in, Gives};
ghost use Rattle.reach.specs.Reach.{bit};
ghost use Rattle.starts.specs.Starts.{FileTimes};
ghost use Rattle.delays.specs.Delays.{Fit};
ghost use Rattle.acceptance.specs.Acceptance.{schedule_checks, Accepts};
ghost use Rattle.acceptance.specs.Outcomes.{outcome, room_refusal};

use files::{Fault, Refusal};
use layout::EdgeRecord;
use readings::{GraphReading, read_graph};
use turn::first_turn;

// An accepted graph: its latency, and the file as read.
#[derive(Clone, Copy)]
pub struct Acceptance {
    pub latency: u32,
    pub reading: GraphReading,
}

// A refused graph: the fault, and the file as read where 1 to 8 let it pass. The file comes before the fault, since it then lies where an `Acceptance` has
// it: otherwise an accepted graph is copied once more.
#[derive(Clone, Copy)]
pub struct RefusedGraph {
    pub reading: Option<GraphReading>,
    pub fault: Fault,
}

// A call that tells the fault has no use for the file.
impl From<RefusedGraph> for Fault {
    ghost from_gives = { λ refused fault. fault ≡ refused.fault };

    fn from(refused: RefusedGraph) -> Fault {
        refused.fault
    }
}

// What a call says: number 0 if it succeeds, else document 01's number of the refusal, and place, latency and margin where 01
// names them for that number, 0 elsewhere.
#[repr(C)]
#[derive(Clone, Copy)]
pub struct Outcome {
    pub number: u32,
    pub place: u32,
    pub latency: u32,
    pub margin: i32,
}

// A fault as a call tells it: number and place. What else the verdict tells of a late proposal it adds itself.
impl From<Fault> for Outcome {
    ghost from_gives = { λ fault told. told ≡ outcome (refusal_of fault) };

    fn from(fault: Fault) -> Outcome {
        let refusal = Refusal::from(fault);
        Outcome {
            number: refusal.number,
            place: refusal.place,
            latency: 0,
            margin: 0,
        }
    }
}

// What a call tells that hands over nothing else.
impl From<Result<(), Fault>> for Outcome {
    ghost from_gives = { λ answer told. told ≡ outcome (refusal_in answer) };

    fn from(answer: Result<(), Fault>) -> Outcome {
        match answer {
            Ok(()) => SUCCESS,
            Err(fault) => Outcome::from(fault),
        }
    }
}

// Nothing is refused.
pub const SUCCESS: Outcome = Outcome {
    number: 0,
    place: 0,
    latency: 0,
    margin: 0,
};

// Whether input and output differ, and the output is among the tasks reached.
fn is_reached(reached: u64, input: usize, output: usize) -> bool
    requires { output < 64 }
    ensures { result ≡ not (eqb input output) && bit reached output }
{
    if output == input {
        return false;
    }
    reach::has_bit(reached, output)
}

// Checks 9 to 12, and the latency where they pass: the first turn tells all that they ask for.
fn check_schedule<'a>(
    edges: &'a [EdgeRecord],
    time: &'a [u16],
    input: usize,
    output: usize,
    bound: u32,
) -> Result<u32, Fault>
    requires time_len_bound { (length time.now ≤ 64) × (input < length time.now) × (output < length time.now) }
    requires fit { Fit (length time.now) (edges_in edges.now) }
    requires file_times { FileTimes time.now }
    ensures { Gives result (schedule_checks (length time.now) (edges_in edges.now) (at time.now) input output bound) (latency (length time.now) (edges_in edges.now) (at time.now) output) }
{
    let tasks = time.len();
    let mut start: [u32; 64] = [0; 64];
    let turn = first_turn(edges, time, input, &mut start[0..tasks]);
    let Some(reached) = turn.reached else {
        return Err(Fault::ZeroCycle);
    };
    if !turn.free {
        return Err(Fault::InputWaits);
    }
    if !is_reached(reached, input, output) {
        return Err(Fault::NotJoined);
    }
    let latency = start[output] + time[output] as u32;
    if bound < latency {
        return Err(Fault::BoundBelow);
    }
    Ok(latency)
}

// Reads a graph file and judges it up to 12, for every list of bytes.
pub fn accept(graph: &[u8]) -> Result<Acceptance, RefusedGraph>
    ensures { Accepts graph.now result }
{
    let reading = match read_graph(graph) {
        Ok(reading) => reading,
        Err(fault) => {
            return Err(RefusedGraph {
                fault,
                reading: None,
            });
        }
    };
    let tasks = reading.tasks as usize;
    let end = tasks + reading.edges as usize;
    let latency = match check_schedule(
        &reading.ordering[0..end],
        &reading.time[0..tasks],
        reading.input as usize,
        reading.output as usize,
        reading.bound,
    ) {
        Ok(least) => least,
        Err(fault) => {
            return Err(RefusedGraph {
                fault,
                reading: Some(reading),
            });
        }
    };
    Ok(Acceptance { latency, reading })
}

// 16, where a list of `room` elements is lent and `needed` are to be written.
pub fn check_room(needed: usize, room: usize) -> Result<(), Fault>
    ensures { refusal_in result ≡ room_refusal needed room }
{
    if room < needed {
        return Err(Fault::ShortList);
    }
    Ok(())
}
