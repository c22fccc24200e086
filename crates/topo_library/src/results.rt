//! What calls tell of themselves, for C.
ghost use Rattle.std.specs.Prelude.{◌≡◌};
ghost use Rattle.topo_library.specs.Tellings.{way_at, way_told, edits_told, closing_number, undone_number};

use mesh_base::How;
use pass_run::PassCount;
use track_engine::StepTold;
use track_held::Closing;

/// How a step is taken: a number for the way, and of some ways how often; and how many pairs do not pass in the asked step.
#[repr(C)]
#[derive(Clone, Copy, Debug, PartialEq, Eq)]
pub struct TopoWay {
    pub how: u32,
    pub times: u32,
    pub hits: usize,
}

/// How many edits of a pass were done, and how many were asked for and refused.
#[repr(C)]
#[derive(Clone, Copy, Debug, PartialEq, Eq)]
pub struct TopoEdits {
    pub done: u64,
    pub refused: u64,
}

/// How much there is of a tracker: the lines that were told since the log was last taken or forgotten, the live vertices and faces, the ids that the next vertex and
/// the next face get, and the steps that were taken.
#[repr(C)]
#[derive(Clone, Copy, Debug, PartialEq, Eq)]
pub struct TopoCounted {
    pub lines: usize,
    pub vertices: u32,
    pub faces: u32,
    pub next_vertex: u32,
    pub next_face: u32,
    pub steps: u32,
}

// A way, with the number of pairs.
fn way_at(how: u32, times: u32, hits: usize) -> TopoWay
    ensures { result ≡ way_at how times hits }
{
    TopoWay { how, times, hits }
}

/// What a step tells.
pub(crate) fn way_told(told: StepTold) -> TopoWay
    ensures { result ≡ way_told told }
{
    match told.how {
        How::Whole => way_at(0, 0, told.hits),
        How::Impulse { passes } => way_at(1, passes as u32, told.hits),
        How::Zones { rounds } => way_at(2, rounds, told.hits),
        How::Halved { times } => way_at(3, times as u32, told.hits),
        How::Zero => way_at(4, 0, told.hits),
    }
}

/// What a pass tells.
pub(crate) fn edits_told(count: PassCount) -> TopoEdits
    ensures { result ≡ edits_told count }
{
    TopoEdits {
        done: count.done,
        refused: count.refused,
    }
}

/// What becomes of a group, as a number.
pub(crate) fn closing_number(closing: Closing) -> u32
    ensures { result ≡ closing_number closing }
{
    match closing {
        Closing::NoGroup => 0,
        Closing::Kept => 1,
        Closing::TakenBack => 2,
    }
}

/// What becomes of a group that is taken back by choice, by what would become of it, as a number.
pub(crate) fn undone_number(closing: Closing) -> u32
    ensures { result ≡ undone_number closing }
{
    match closing {
        Closing::NoGroup => 0,
        Closing::Kept => 2,
        Closing::TakenBack => 2,
    }
}
