// Tasks and edges of a file, and processor edges, into lists: a task's processor and time into one each, an edge into a list of records.
#![tactic(auto)]

ghost use Rattle.std.specs.Prelude.{◌≡◌, List, ◌+◌, ◌≤◌, length, take, replicate};
ghost use Rattle.model.specs.Lists.{tabulate};
ghost use Rattle.model.specs.Tasks.{Task};
ghost use Rattle.model.specs.Processors.{processor_edge};
ghost use Rattle.layout.specs.Layout.{graph_header_bits, record_start, task_at, edge_at};
ghost use Rattle.records.specs.Columns.{record_of, with_part, ProcessorsOf};
ghost use Rattle.records.specs.Nexts.{FirstTasks, NextTasks};

use layout::{EdgeRecord, GRAPH_HEADER_BITS, RECORD_BITS};

// The tasks of a graph file, as many as the lists have room for.
pub fn read_tasks<'a>(bytes: &[u8], processor: &'a mut [u8], time: &'a mut [u16])
    requires processor_len_bound { length processor.old ≤ 64 }
    requires time_len { length time.old ≡ length processor.old }
    ensures processor_after { processor.new ≡ tabulate (length processor.old) (λ v. (task_at bytes.now (record_start graph_header_bits v)).processor) }
    ensures time_after { time.new ≡ tabulate (length processor.old) (λ v. (task_at bytes.now (record_start graph_header_bits v)).time) }
{
    for v in 0..processor.len() {
        let task = layout::task_at(bytes, GRAPH_HEADER_BITS + RECORD_BITS * v);
        processor[v] = task.processor;
        time[v] = task.time;
    }
}

// The edges of a file from a bit position on, as many as the list has room for.
pub fn read_edges(bytes: &[u8], position: usize, edges: &mut [EdgeRecord])
    requires position_bound { position ≤ 65536 }
    requires edges_len_bound { length edges.old ≤ 256 }
    ensures { edges.new ≡ tabulate (length edges.old) (λ j. record_of (edge_at bytes.now (record_start position j))) }
{
    for j in 0..edges.len() {
        edges[j] = layout::edge_at(bytes, position + RECORD_BITS * j);
    }
}

// No task, in the arrays of tasks: above every task.
const NO_TASK: u8 = 64;

// For each task the next one on its processor, for each processor its first task. One pass from the last task to the first: the first task on a
// processor from a task on is the next one for the task before.
fn find_next<'a>(processor: &[u8], next: &'a mut [u8], first: &'a mut [u8])
    requires processor_len_bound { (length processor.now ≤ 64) × (length processor.now ≤ length next.old) }
    requires first_value { first.old ≡ replicate 256 64 }
    ensures next_tasks { NextTasks processor.now 0 next.new }
    ensures first_tasks { FirstTasks processor.now 0 first.new }
{
    for v in (0..processor.len()).rev() {
        let own = processor[v] as usize;
        next[v] = first[own];
        first[own] = v as u8;
    }
}

// The processor edges, one out of each task, in the tasks' sequence: to the next task on its processor with delay 0, from the last to the first
// with delay 1.
pub fn processor_edges(processor: &[u8], edges: &mut [EdgeRecord])
    requires processor_len_bound { length processor.now ≤ 64 }
    requires edges_len { length edges.old ≡ length processor.now }
    ensures { (ts : List Task) → ProcessorsOf ts processor.now → edges.new ≡ tabulate (length ts) (λ v. record_of (processor_edge ts v)) }
{
    let mut next: [u8; 64] = [NO_TASK; 64];
    let mut first: [u8; 256] = [NO_TASK; 256];
    find_next(processor, &mut next, &mut first);
    for v in 0..processor.len() {
        let source = v as u8;
        if next[v] < NO_TASK {
            edges[v] = EdgeRecord {
                source,
                sink: next[v],
                delay: 0,
            };
        } else {
            edges[v] = EdgeRecord {
                source,
                sink: first[processor[v] as usize],
                delay: 1,
            };
        }
    }
}

// The tasks of a graph file at the front of longer lists.
pub fn tasks_into<'a>(bytes: &[u8], tasks: usize, processor: &'a mut [u8], time: &'a mut [u16])
    requires tasks_bound { tasks ≤ 64 }
    requires tasks_in_bounds { (tasks ≤ length processor.old) × (tasks ≤ length time.old) }
    ensures processor_after { processor.new ≡ with_part 0 tasks (λ v. (task_at bytes.now (record_start graph_header_bits v)).processor) processor.old }
    ensures time_after { time.new ≡ with_part 0 tasks (λ v. (task_at bytes.now (record_start graph_header_bits v)).time) time.old }
{
    read_tasks(bytes, &mut processor[..tasks], &mut time[..tasks]);
}

// The edges of a file from a bit position on, as the part from `from` to `to` of a longer list.
pub fn edges_into(bytes: &[u8], position: usize, from: usize, to: usize, edges: &mut [EdgeRecord])
    requires position_bound { position ≤ 65536 }
    requires from_le_to { (from ≤ to) × (to ≤ from + 256) }
    requires to_in_bounds { to ≤ length edges.old }
    ensures { edges.new ≡ with_part from to (λ j. record_of (edge_at bytes.now (record_start position j))) edges.old }
{
    read_edges(bytes, position, &mut edges[from..to]);
}

// The processor edges at the front of a longer list.
pub fn processor_edges_into(tasks: usize, processor: &[u8], edges: &mut [EdgeRecord])
    requires tasks_bound { tasks ≤ 64 }
    requires tasks_in_bounds { (tasks ≤ length processor.now) × (tasks ≤ length edges.old) }
    ensures { (ts : List Task) → ProcessorsOf ts (take tasks processor.now) → edges.new ≡ with_part 0 tasks (λ v. record_of (processor_edge ts v)) edges.old }
{
    processor_edges(&processor[..tasks], &mut edges[..tasks]);
}
