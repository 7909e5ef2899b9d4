// Writes a stage into a lent list of edge records.
ghost use Rattle.std.specs.Prelude.{◌≡◌, ◌≤◌, length};
ghost use Rattle.stages.specs.Stages.{listed, written_into};

use crate::StageEdges;
use layout::EdgeRecord;

// Writes the edges of a stage at the front of a list; records past them keep what they held.
pub fn fill(list: &mut [EdgeRecord], stage: &StageEdges)
    requires { (stage.now.count ≤ length list.old) × (stage.now.count ≤ 256) }
    ensures { list.new ≡ written_into list.old (listed stage.now.count stage.now.edges) }
{
    let count = stage.count as usize;
    list[..count].copy_from_slice(&stage.edges[..count]);
}
