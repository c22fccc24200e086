//! The same calls of one mesh, kept in three ways.
ghost use Rattle.std.specs.Prelude.{◌≡◌, IfOk};
ghost use Rattle.mesh_base.specs.Given.{listed_mesh};
ghost use Rattle.mesh_shape.specs.Shape.{HaveGoodShape};
ghost use Rattle.mesh_play.specs.Play.{start_of, answers_in, AreLawful};

use crate::call_sequence::play;
use crate::calls::{Answers, Call};
use grid_base::NoMemory;
use half_mesh::HalfMesh;
use mesh_base::{MeshLists, Scale};
use mesh_journal::JournalMesh;
use mesh_plain::PlainMesh;
use std::alloc::Global;

/// What each of three meshes answers to the same calls, in their order.
#[derive(Drop)]
pub struct ThreeAnswers {
    pub plain: Answers,
    pub half: Answers,
    pub journal: Answers,
}

/// Makes a mesh of lists of good shape, with the limits of a scale, in each of the three ways in which meshes are kept, by `PlainMesh::of`,
/// `HalfMesh::of` and `JournalMesh::of`, and makes the calls of each. Whichever it is, the answers are the same. Refuses
/// only where there is no memory.
pub fn play_three(
    alloc: Global,
    scale: Scale,
    lists: &MeshLists,
    calls: &[Call],
) -> Result<ThreeAnswers, NoMemory>
    requires shape { HaveGoodShape scale lists.now }
    requires lawful { AreLawful (start_of (listed_mesh scale lists.now)) calls.now }
    ensures plain { IfOk result
        (λ it. it.plain ≡ answers_in (listed_mesh scale lists.now) calls.now) }
    ensures half { IfOk result (λ it. it.half ≡ it.plain) }
    ensures journal { IfOk result (λ it. it.journal ≡ it.plain) }
{
    let mut plain = PlainMesh::of(alloc, scale, lists)?;
    let mut half = HalfMesh::of(alloc, scale, lists)?;
    let mut journal = JournalMesh::of(alloc, scale, lists)?;
    Ok(ThreeAnswers {
        plain: play(alloc, &mut plain, calls)?,
        half: play(alloc, &mut half, calls)?,
        journal: play(alloc, &mut journal, calls)?,
    })
}
