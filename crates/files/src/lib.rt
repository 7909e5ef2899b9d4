// What can be wrong, with its number and place; and the checks of graph and proposal files, 1 to 8 in document 01's sequence.
#![tactic(auto)]

ghost use Rattle.std.specs.Prelude.{◌≡◌};
ghost use Rattle.files.specs.Refusals.{refusal_of};

mod checks;
mod headers;

pub use checks::{check_proposed, check_records};
pub use headers::{check_graph_frame, check_proposal_frame};

// What is wrong with a file, a graph, a proposal or a call. A number names the task or the edge that is at fault (tasks count from 0, edges from 1), of a late
// proposal the latency of its result.
#[derive(Clone, Copy, PartialEq, Eq)]
pub enum Fault {
    FewerBytes,
    OtherVersion,
    CountOutside,
    MoreBytes,
    FillingBit,
    TimeOfZero(u32),
    EndOutside(u32),
    HeaderOutside,
    WithinProcessor(u32),
    RepeatedEdge(u32),
    ZeroCycle,
    InputWaits,
    NotJoined,
    BoundBelow,
    OnCycle(u32),
    LostOrder(u32),
    Late(u32),
    ShortList,
    TurnsOutside,
}

// A refusal as document 01 numbers it. Number 0: nothing is refused.
#[repr(C)]
#[derive(Clone, Copy)]
pub struct Refusal {
    pub number: u32,
    pub place: u32,
}

impl From<Fault> for Refusal {
    ghost from_gives = { λ fault refusal. refusal ≡ refusal_of fault };

    fn from(fault: Fault) -> Refusal {
        let (number, place) = match fault {
            Fault::FewerBytes => (1, 0),
            Fault::OtherVersion => (2, 0),
            Fault::CountOutside => (3, 0),
            Fault::MoreBytes | Fault::FillingBit => (4, 0),
            Fault::TimeOfZero(task) => (5, task),
            Fault::EndOutside(edge) => (6, edge),
            Fault::HeaderOutside => (6, 0),
            Fault::WithinProcessor(edge) => (7, edge),
            Fault::RepeatedEdge(edge) => (8, edge),
            Fault::ZeroCycle => (9, 0),
            Fault::InputWaits => (10, 0),
            Fault::NotJoined => (11, 0),
            Fault::BoundBelow => (12, 0),
            Fault::OnCycle(edge) => (13, edge),
            Fault::LostOrder(edge) => (14, edge),
            Fault::Late(_) => (15, 0),
            Fault::ShortList => (16, 0),
            Fault::TurnsOutside => (17, 0),
        };
        Refusal { number, place }
    }
}
