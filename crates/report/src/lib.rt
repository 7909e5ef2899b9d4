// The program's text: the lines of document 01 for a graph file and a proposal file.
#![tactic(auto)]

mod lines;

ghost use Rattle.std.specs.Prelude.{◌≡◌};
ghost use Rattle.report.specs.Report.{report_of};

use lines::text_of;

// A text: its length, its bytes, and 0 behind them.
#[derive(Clone, Copy)]
pub struct Text {
    pub length: usize,
    pub bytes: [u8; 1024],
}

// What is printed of two files' bytes, whatever they are.
pub fn report(graph: &[u8], proposal: &[u8]) -> Text
    ensures { result ≡ report_of graph.now proposal.now }
{
    let figures = figures::figures(graph);
    let set = redundant::redundant(graph);
    let verdict = verdict::verdict(graph, proposal);
    text_of(figures, set, verdict)
}
