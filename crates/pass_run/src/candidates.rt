//! What a pass asks, in order, where it is listed at its start.
ghost use Rattle.std.specs.Prelude.{◌≡◌, IfOk};
ghost use Rattle.pass_run.specs.Candidates.{all_splits};

use edit_base::Asked;
use grid_base::NoMemory;
use mesh_base::{Surface, edges_in_order};
use std::alloc::Global;

/// The splits of all edges.
pub(crate) fn splits<S: Surface>(alloc: Global, mesh: &S) -> Result<Vec<Asked>, NoMemory>
    ensures { IfOk result (λ found. found.items ≡ all_splits (S.mesh mesh.now)) }
{
    let edges = edges_in_order(alloc, mesh)?;
    let asked = edges
        .as_slice()
        .iter()
        .map(|e| Asked::Split { a: e.0, b: e.1 })
        .collect(alloc)?;
    Ok(asked)
}
