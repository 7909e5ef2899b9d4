// Where the fields of the two files stand. The headers and records are read by a `Reader`; callers hand over plain bytes.
#![tactic(auto)]

ghost use Rattle.std.specs.Prelude.{◌≡◌, ◌≤◌};
ghost use Rattle.bits.specs.Bits.{field};
ghost use Rattle.layout.specs.Layout.{graph_header, proposal_header, task_at, edge_at};

use bits::Reader;

// Bits of a graph's header and of a proposal's, and of a task or an edge.
pub const GRAPH_HEADER_BITS: usize = 56;

pub const PROPOSAL_HEADER_BITS: usize = 16;

pub const RECORD_BITS: usize = 20;

// Version 5 bits, tasks 7, edges 9, latency input 6, latency output 6, bound 23.
#[derive(Clone, Copy)]
pub struct GraphHeader {
    pub version: u32,
    pub tasks: u32,
    pub edges: u32,
    pub input: u32,
    pub output: u32,
    pub bound: u32,
}

// Version 5 bits, edges 9, two zero bits.
#[derive(Clone, Copy)]
pub struct ProposalHeader {
    pub version: u32,
    pub edges: u32,
    pub zeros: u32,
}

// The field of a width from a bit position on.
pub fn field_from(bytes: &[u8], position: usize, width: usize) -> u32
    requires { width ≤ 25 }
    ensures { result ≡ field bytes.now position width }
{
    Reader::new(bytes, position).field(width)
}

pub fn graph_header(bytes: &[u8]) -> GraphHeader
    ensures { result ≡ graph_header bytes.now }
{
    let r0 = Reader::new(bytes, 0);
    let version = r0.field(5);
    let r1 = r0.advanced(5);
    let tasks = r1.field(7);
    let r2 = r1.advanced(7);
    let edges = r2.field(9);
    let r3 = r2.advanced(9);
    let input = r3.field(6);
    let r4 = r3.advanced(6);
    let output = r4.field(6);
    let r5 = r4.advanced(6);
    let bound = r5.field(23);
    GraphHeader {
        version,
        tasks,
        edges,
        input,
        output,
        bound,
    }
}

pub fn proposal_header(bytes: &[u8]) -> ProposalHeader
    ensures { result ≡ proposal_header bytes.now }
{
    let r0 = Reader::new(bytes, 0);
    let version = r0.field(5);
    let r1 = r0.advanced(5);
    let edges = r1.field(9);
    let r2 = r1.advanced(9);
    let zeros = r2.field(2);
    ProposalHeader {
        version,
        edges,
        zeros,
    }
}

// A task's record: processor 4 bits, time 16.
#[derive(Clone, Copy)]
pub struct TaskRecord {
    pub processor: u8,
    pub time: u16,
}

pub fn task_at(bytes: &[u8], position: usize) -> TaskRecord
    ensures processor { result.processor ≡ (task_at bytes.now position).processor }
    ensures time { result.time ≡ (task_at bytes.now position).time }
{
    let record = field_from(bytes, position, RECORD_BITS);
    TaskRecord {
        processor: (record >> 16) as u8,
        time: (record & 0xffff) as u16,
    }
}

// An edge's record: source 6 bits, sink 6, delay 8.
#[repr(C)]
#[derive(Clone, Copy)]
pub struct EdgeRecord {
    pub source: u8,
    pub sink: u8,
    pub delay: u8,
}

pub fn edge_at(bytes: &[u8], position: usize) -> EdgeRecord
    ensures source { result.source ≡ (edge_at bytes.now position).source }
    ensures sink { result.sink ≡ (edge_at bytes.now position).sink }
    ensures delay { result.delay ≡ (edge_at bytes.now position).delay }
{
    let record = field_from(bytes, position, RECORD_BITS);
    EdgeRecord {
        source: (record >> 14) as u8,
        sink: ((record >> 8) & 0x3f) as u8,
        delay: (record & 0xff) as u8,
    }
}
