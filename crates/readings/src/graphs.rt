// Reading a graph file.
ghost use Rattle.std.specs.Prelude.{◌≡◌, ◌≤◌, replicate};
ghost use Rattle.layout.specs.Layout.{graph_header};
ghost use Rattle.files.specs.Refusals.{refusal_in};
ghost use Rattle.files.specs.Files.{graph_of, graph_records_refusal};
ghost use Rattle.records.specs.Columns.{zeros, no_record};
ghost use Rattle.readings.specs.Working.{GraphLists, GraphRead};

use crate::GraphReading;
use files::{Fault, check_graph_frame, check_records};
use layout::{EdgeRecord, GRAPH_HEADER_BITS, GraphHeader, RECORD_BITS};
use records::{edges_into, processor_edges_into, tasks_into};

// The tasks and edges of a file whose counts are in range, into lists of zeros and blank records.
fn graph_lists<'a>(
    bytes: &[u8],
    header: GraphHeader,
    processor: &'a mut [u8],
    time: &'a mut [u16],
    ordering: &'a mut [EdgeRecord],
)
    requires header_value { header ≡ graph_header bytes.now }
    requires tasks_bound { (header.tasks ≤ 64) × (header.edges ≤ 256) }
    requires processor_value { (processor.old ≡ zeros 64) × (time.old ≡ zeros 64) }
    requires ordering_value { ordering.old ≡ replicate 320 no_record }
    ensures { GraphLists (graph_of bytes.now) processor.new time.new ordering.new }
{
    let tasks = header.tasks as usize;
    let end = tasks + header.edges as usize;
    tasks_into(bytes, tasks, processor, time);
    processor_edges_into(tasks, processor, ordering);
    edges_into(
        bytes,
        GRAPH_HEADER_BITS + RECORD_BITS * tasks,
        tasks,
        end,
        ordering,
    );
}

// The tasks and edges of a file whose counts are in range, into lists of zeros and blank records, checked.
fn graph_records<'a>(
    bytes: &[u8],
    header: GraphHeader,
    processor: &'a mut [u8],
    time: &'a mut [u16],
    ordering: &'a mut [EdgeRecord],
) -> Result<(), Fault>
    requires header_value { header ≡ graph_header bytes.now }
    requires tasks_bound { (header.tasks ≤ 64) × (header.edges ≤ 256) }
    requires processor_value { (processor.old ≡ zeros 64) × (time.old ≡ zeros 64) }
    requires ordering_value { ordering.old ≡ replicate 320 no_record }
    ensures refusal { refusal_in result ≡ graph_records_refusal (graph_of bytes.now) }
    ensures lists { GraphLists (graph_of bytes.now) processor.new time.new ordering.new }
{
    let tasks = header.tasks as usize;
    let end = tasks + header.edges as usize;
    graph_lists(bytes, header, processor, time, ordering);
    check_records(&processor[0..tasks], &time[0..tasks], &ordering[tasks..end])
}

// The graph that a file holds, in its working form, or the fault of 1 to 8 that it has, for every list of bytes.
pub fn read_graph(bytes: &[u8]) -> Result<GraphReading, Fault>
    ensures { GraphRead bytes.now result }
{
    let header = layout::graph_header(bytes);
    check_graph_frame(bytes, header)?;
    let mut processor: [u8; 64] = [0; 64];
    let mut time: [u16; 64] = [0; 64];
    let none = EdgeRecord {
        source: 0,
        sink: 0,
        delay: 0,
    };
    let mut ordering: [EdgeRecord; 320] = [none; 320];
    graph_records(bytes, header, &mut processor, &mut time, &mut ordering)?;
    Ok(GraphReading {
        tasks: header.tasks,
        edges: header.edges,
        input: header.input,
        output: header.output,
        bound: header.bound,
        processor,
        time,
        ordering,
    })
}
