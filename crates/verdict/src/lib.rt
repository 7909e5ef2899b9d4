// The verdict on a proposal. The call asks nothing of its caller.
#![tactic(auto)]

ghost use Rattle.std.specs.Prelude.{◌≡◌, ◌<◌, pos};
ghost use Rattle.files.specs.Refusals.{refusal_of, refusal_in, if_passed};
ghost use Rattle.acceptance.specs.Outcomes.{outcome};
ghost use Rattle.judgement.specs.Judgement.{latency_told};
ghost use Rattle.verdict.specs.Verdict.{margin, told_late, verdict_of};

use acceptance::{Outcome, SUCCESS, accept};
use files::Fault;
use judgement::judge;
use readings::read_proposal;

// The verdict on a proposal: the latency of its result, and the bound less that latency; 0 if it is refused, and then 15 has both
// in its outcome.
#[repr(C)]
#[derive(Clone, Copy)]
pub struct ProposalVerdict {
    pub outcome: Outcome,
    pub latency: u32,
    pub margin: i32,
}

// The bound less the latency: negative if the latency is above it.
fn margin_of(bound: u32, latency: u32) -> i32
    requires { (bound < 1073741824) × (latency < 1073741824) }
    ensures { result ≡ margin bound latency }
{
    bound as i32 - latency as i32
}

// The answer to a fault, without latency and margin.
fn refused(fault: Fault) -> ProposalVerdict
    ensures { (result.outcome ≡ outcome (refusal_of fault)) × (result.latency ≡ 0) × (result.margin ≡ pos 0) }
{
    ProposalVerdict {
        outcome: fault.into(),
        latency: 0,
        margin: 0,
    }
}

// The answer once the edges are judged: an accepted proposal has latency and margin, a late one has them in its outcome.
fn weighed(judged: Result<u32, Fault>, bound: u32) -> ProposalVerdict
    requires { (bound < 1073741824) × (latency_told judged < 1073741824) }
    ensures outcome { result.outcome ≡ told_late (refusal_in judged) bound (latency_told judged) }
    ensures latency { result.latency ≡ if_passed (refusal_in judged).number (latency_told judged) 0 }
    ensures margin { result.margin ≡ if_passed (refusal_in judged).number (margin bound (latency_told judged)) (pos 0) }
{
    match judged {
        Ok(latency) => ProposalVerdict {
            outcome: SUCCESS,
            latency,
            margin: margin_of(bound, latency),
        },
        Err(fault) => {
            let mut answer = refused(fault);
            if let Fault::Late(latency) = fault {
                answer.outcome.latency = latency;
                answer.outcome.margin = margin_of(bound, latency);
            }
            answer
        }
    }
}

// Whether a proposal is accepted beside a graph, with the latency of its result and its margin, or why not.
pub fn verdict(graph: &[u8], proposal: &[u8]) -> ProposalVerdict
    ensures { result ≡ verdict_of graph.now proposal.now }
{
    let reading = match accept(graph) {
        Ok(accepted) => accepted.reading,
        Err(unaccepted) => return refused(unaccepted.fault),
    };
    let proposed = match read_proposal(proposal, reading.tasks as usize) {
        Ok(proposed) => proposed,
        Err(fault) => return refused(fault),
    };
    weighed(judge(reading, proposed), reading.bound)
}
