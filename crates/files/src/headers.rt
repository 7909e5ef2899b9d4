// The checks of a file's header, length and filling, in document 01's sequence.
ghost use Rattle.std.specs.Prelude.{◌≡◌, List, ℕ, ◌≤◌, length};
ghost use Rattle.layout.specs.Layout.{graph_header, proposal_header, bytes_for};
ghost use Rattle.files.specs.Refusals.{refusal_in};
ghost use Rattle.files.specs.Files.{graph_header_refusal, proposal_header_refusal, length_refusal, filling_refusal, zeros_refusal, header_ends_refusal, graph_frame_refusal, proposal_frame_refusal};

use crate::Fault;
use layout::{GRAPH_HEADER_BITS, GraphHeader, PROPOSAL_HEADER_BITS, ProposalHeader, RECORD_BITS};

// Header 1, 2, 3 of a graph.
fn check_graph_header(bytes: &[u8], header: GraphHeader) -> Result<(), Fault>
    requires { header ≡ graph_header bytes.now }
    ensures { refusal_in result ≡ graph_header_refusal bytes.now }
{
    if bytes.len() < 7 {
        return Err(Fault::FewerBytes);
    }
    if header.version != 1 {
        return Err(Fault::OtherVersion);
    }
    if header.tasks < 2 {
        return Err(Fault::CountOutside);
    }
    if header.tasks > 64 {
        return Err(Fault::CountOutside);
    }
    if header.edges > 256 {
        return Err(Fault::CountOutside);
    }
    Ok(())
}

// Header 1, 2, 3 of a proposal.
fn check_proposal_header(bytes: &[u8], header: ProposalHeader) -> Result<(), Fault>
    requires { header ≡ proposal_header bytes.now }
    ensures { refusal_in result ≡ proposal_header_refusal bytes.now }
{
    if bytes.len() < 2 {
        return Err(Fault::FewerBytes);
    }
    if header.version != 1 {
        return Err(Fault::OtherVersion);
    }
    if header.edges > 256 {
        return Err(Fault::CountOutside);
    }
    Ok(())
}

// Length 1 or 4, where the counts need so many bits.
fn check_length(bytes: &[u8], used: usize) -> Result<(), Fault>
    requires { used ≤ 65536 }
    ensures { refusal_in result ≡ length_refusal bytes.now used }
{
    let needed = (used + 7) >> 3;
    if bytes.len() < needed {
        return Err(Fault::FewerBytes);
    }
    if bytes.len() > needed {
        return Err(Fault::MoreBytes);
    }
    Ok(())
}

// Filling 4, of a file that has the length that its counts need.
fn check_filling(bytes: &[u8], used: usize) -> Result<(), Fault>
    requires used_bound { used ≤ 65536 }
    requires bytes_len { length bytes.now ≡ bytes_for used }
    ensures { refusal_in result ≡ filling_refusal bytes.now used }
{
    let left = 8 * bytes.len() - used;
    if layout::field_from(bytes, used, left) != 0 {
        return Err(Fault::FillingBit);
    }
    Ok(())
}

// The two zero bits of a proposal, 4.
fn check_zeros(header: ProposalHeader) -> Result<(), Fault>
    ensures { (s : List ℕ) → header ≡ proposal_header s → refusal_in result ≡ zeros_refusal s }
{
    if header.zeros != 0 {
        return Err(Fault::FillingBit);
    }
    Ok(())
}

// Header 6: latency input and output.
fn check_header_ends(header: GraphHeader) -> Result<(), Fault>
    ensures { (s : List ℕ) → header ≡ graph_header s → refusal_in result ≡ header_ends_refusal s }
{
    if header.input >= header.tasks {
        return Err(Fault::HeaderOutside);
    }
    if header.output >= header.tasks {
        return Err(Fault::HeaderOutside);
    }
    Ok(())
}

// All that is judged of a graph file before its tasks and edges.
pub fn check_graph_frame(bytes: &[u8], header: GraphHeader) -> Result<(), Fault>
    requires { header ≡ graph_header bytes.now }
    ensures { refusal_in result ≡ graph_frame_refusal bytes.now }
{
    check_graph_header(bytes, header)?;
    let used = GRAPH_HEADER_BITS + RECORD_BITS * (header.tasks as usize + header.edges as usize);
    check_length(bytes, used)?;
    check_filling(bytes, used)?;
    check_header_ends(header)
}

// All that is judged of a proposal file before its edges.
pub fn check_proposal_frame(bytes: &[u8], header: ProposalHeader) -> Result<(), Fault>
    requires { header ≡ proposal_header bytes.now }
    ensures { refusal_in result ≡ proposal_frame_refusal bytes.now }
{
    check_proposal_header(bytes, header)?;
    let used = PROPOSAL_HEADER_BITS + RECORD_BITS * header.edges as usize;
    check_length(bytes, used)?;
    check_zeros(header)?;
    check_filling(bytes, used)
}
