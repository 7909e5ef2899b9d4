// Each line put into a lent list of bytes, and all of them into a text.
ghost use Rattle.std.specs.Prelude.{◌≡◌, ◌+◌, ◌≤◌, length};
ghost use Rattle.text.specs.Text.{Appended};
ghost use Rattle.report.specs.Report.{graph_line, redundant_line, accepted_line, refused_line, verdict_line, printed, text_of};

use crate::Text;
use acceptance::Outcome;
use figures::GraphFigures;
use marks::places_of;
use redundant::RedundantSet;
use text::{put, put_field, put_fields, put_signed_field, put_word};
use verdict::ProposalVerdict;

const NEWLINE: u8 = b'\n';

// "tasks, edges, latency"
fn put_graph_line(out: &mut [u8], at: usize, figures: GraphFigures) -> usize
    requires { at + length (graph_line figures) ≤ length out.old }
    ensures { Appended at (graph_line figures) out.old out.new result }
{
    let word = put_word(out, at, b"graph");
    let tasks = put_field(out, word, figures.tasks);
    let edges = put_field(out, tasks, figures.edges);
    let latency = put_field(out, edges, figures.latency);
    put(out, latency, NEWLINE)
}

// "count of redundant edges and their places ascending"
#[tactic(auto, using(crate::proofs::Whole::places_within))]
fn put_redundant_line(out: &mut [u8], at: usize, set: RedundantSet) -> usize
    requires { at + length (redundant_line set) ≤ length out.old }
    ensures { Appended at (redundant_line set) out.old out.new result }
{
    let listed = places_of(set.marks);
    let list = &listed.place[..listed.count as usize];
    let word = put_word(out, at, b"redundant");
    let count = put_field(out, word, set.count);
    let places = put_fields(out, count, list);
    put(out, places, NEWLINE)
}

// "latency and margin"
fn put_accepted_line(out: &mut [u8], at: usize, verdict: ProposalVerdict) -> usize
    requires { at + length (accepted_line verdict) ≤ length out.old }
    ensures { Appended at (accepted_line verdict) out.old out.new result }
{
    let word = put_word(out, at, b"accepted");
    let latency = put_field(out, word, verdict.latency);
    let margin = put_signed_field(out, latency, verdict.margin);
    put(out, margin, NEWLINE)
}

// "number, place, latency, margin"
fn put_refused_line(out: &mut [u8], at: usize, outcome: Outcome) -> usize
    requires { at + length (refused_line outcome) ≤ length out.old }
    ensures { Appended at (refused_line outcome) out.old out.new result }
{
    let word = put_word(out, at, b"refused");
    let number = put_field(out, word, outcome.number);
    let place = put_field(out, number, outcome.place);
    let latency = put_field(out, place, outcome.latency);
    let margin = put_signed_field(out, latency, outcome.margin);
    put(out, margin, NEWLINE)
}

// Line 3. What a call tells is C's record, in which number 0 is success.
fn put_verdict_line(out: &mut [u8], at: usize, verdict: ProposalVerdict) -> usize
    requires { at + length (verdict_line verdict) ≤ length out.old }
    ensures { Appended at (verdict_line verdict) out.old out.new result }
{
    let outcome = verdict.outcome;
    if outcome.number != 0 {
        return put_refused_line(out, at, outcome);
    }
    put_accepted_line(out, at, verdict)
}

// The text of what the calls answered.
pub fn text_of(figures: GraphFigures, set: RedundantSet, verdict: ProposalVerdict) -> Text
    requires { length (printed figures set verdict) ≤ 1024 }
    ensures { result ≡ text_of (printed figures set verdict) }
{
    let mut bytes = [0; 1024];
    let outcome = figures.outcome;
    if outcome.number != 0 {
        let length = put_refused_line(&mut bytes, 0, outcome);
        return Text { length, bytes };
    }
    let second = put_graph_line(&mut bytes, 0, figures);
    let third = put_redundant_line(&mut bytes, second, set);
    let length = put_verdict_line(&mut bytes, third, verdict);
    Text { length, bytes }
}
