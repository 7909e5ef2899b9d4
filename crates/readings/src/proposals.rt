// Reading a proposal file.
ghost use Rattle.std.specs.Prelude.{◌≡◌, ◌≤◌, replicate};
ghost use Rattle.layout.specs.Layout.{proposal_header};
ghost use Rattle.files.specs.Refusals.{refusal_in};
ghost use Rattle.files.specs.Files.{proposal_of, proposed_edges_refusal};
ghost use Rattle.records.specs.Columns.{no_record};
ghost use Rattle.readings.specs.Working.{working_proposal, ProposalRead};

use crate::ProposalReading;
use files::{Fault, check_proposal_frame, check_proposed};
use layout::{EdgeRecord, PROPOSAL_HEADER_BITS, ProposalHeader};
use records::edges_into;

// The edges of a file whose count is in range, into a list of blank records, checked.
fn proposal_records<'a>(
    bytes: &[u8],
    header: ProposalHeader,
    tasks: usize,
    proposed: &'a mut [EdgeRecord],
) -> Result<(), Fault>
    requires header_value { header ≡ proposal_header bytes.now }
    requires edges_bound { header.edges ≤ 256 }
    requires proposed_value { proposed.old ≡ replicate 256 no_record }
    ensures refusal { refusal_in result ≡ proposed_edges_refusal tasks (proposal_of bytes.now) }
    ensures proposed { proposed.new ≡ (working_proposal (proposal_of bytes.now)).proposed }
{
    let edges = header.edges as usize;
    edges_into(bytes, PROPOSAL_HEADER_BITS, 0, edges, proposed);
    check_proposed(tasks, &proposed[0..edges])
}

// The edges that a file proposes beside a graph of so many tasks, or the fault of 1 to 8 that it has, for every list of bytes and every number of
// tasks.
pub fn read_proposal(bytes: &[u8], tasks: usize) -> Result<ProposalReading, Fault>
    ensures { ProposalRead tasks bytes.now result }
{
    let header = layout::proposal_header(bytes);
    check_proposal_frame(bytes, header)?;
    let none = EdgeRecord {
        source: 0,
        sink: 0,
        delay: 0,
    };
    let mut proposed: [EdgeRecord; 256] = [none; 256];
    proposal_records(bytes, header, tasks, &mut proposed)?;
    Ok(ProposalReading {
        edges: header.edges,
        proposed,
    })
}
