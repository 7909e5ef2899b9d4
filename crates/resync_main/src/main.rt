// The program of document 01: reads graph.bin and proposal.bin in the folder that it runs in, and prints the lines.
#![tactic(auto)]

ghost use Rattle.std.specs.Prelude.{◌≡◌, ◌≤◌, length, take};

use report::Text;
use std::fs::File;
use std::io;
use std::io::{Read, Write};

// Reads a file's front, as much as the list holds, and answers how many bytes it has: "A file that cannot be opened counts as empty."
// A read that fails ends the file there. A loop over `read`: `read_to_end` needs a heap, and after the `Err` of a file that is shorter than the list
// `read_exact` does not say how many bytes it read.
fn read_front(rt: &HostRuntime, path: &str, front: &mut [u8]) -> usize
    ensures within { result ≤ length front.new }
    ensures counted { result ≡ length (take result front.new) }
{
    let Ok(mut file) = File::open(rt, path) else {
        return 0;
    };
    let mut length = 0;
    while length < front.len() {
        match file.read(&mut front[length..]) {
            Ok(count) if count > 0 => length += count,
            _ => break,
        }
    }
    length
}

// Each list has 4,096 places. A longer file is refused by its length, and so is its front (ReportCut in crates/report).
fn main(rt: HostRuntime) -> io::Result<()> {
    let mut graph = [0; 4096];
    let mut proposal = [0; 4096];
    let graph_length = read_front(&rt, "graph.bin", &mut graph);
    let proposal_length = read_front(&rt, "proposal.bin", &mut proposal);
    let Text { length, bytes } = report::report(
        &graph[..graph_length],
        &proposal[..proposal_length],
    );
    rt.stdout().write_all(&bytes[..length])
}
