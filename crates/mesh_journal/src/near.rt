//! The faces near a box, among those that a grid finds.
ghost use Rattle.std.specs.Prelude.{◌≡◌, [], ◌∷◌, ◌++◌, Some, None, OnOk, OnErr, if◌then◌else◌};
ghost use Rattle.std.specs.List.{filter};
ghost use Rattle.mesh_base.specs.Near.{is_face_near, faces_near};
ghost use Rattle.mesh_base.specs.Mesh.{IsSound};
ghost use Rattle.mesh_journal.specs.Boxed.{AreBoxed};

use cell_grid::Grid;
use grid_base::{Extent, NoMemory};
use mesh_base::{FaceId, FaceTable, is_face_near};
use std::alloc::Global;

/// A list for what the grid finds begins with room for so many, which is enough for most questions. Only speed depends on it.
const FOUND: usize = 64;

/// The item as a face, where it is one near the extent.
fn near_face<T: FaceTable>(table: &T, at: &Extent, item: u64) -> Option<FaceId>
    requires { IsSound (T.mesh table.now) }
    ensures { result ≡ (if is_face_near (T.mesh table.now) at.now item then Some item else None) }
{
    let id = u32::try_from(item).ok()?;
    if is_face_near(table, at, FaceId(id)) {
        Some(FaceId(id))
    } else {
        None
    }
}

/// Puts the item at the end, if it is a face near the extent.
fn put_if_near<T: FaceTable>(
    table: &T,
    at: &Extent,
    item: u64,
    into: &mut Vec<FaceId>,
) -> Result<(), NoMemory>
    requires { IsSound (T.mesh table.now) }
    ensures { OnOk result (into.new.items ≡ into.old.items
        ++ filter (λ f. is_face_near (T.mesh table.now) at.now f) (item ∷ [])) }
{
    if let Some(f) = near_face(table, at, item) {
        into.push(f)?;
    }
    Ok(())
}

/// Puts those of the items that are faces near the extent at the end, in order.
fn put_near<T: FaceTable>(
    table: &T,
    at: &Extent,
    items: &[u64],
    into: &mut Vec<FaceId>,
) -> Result<(), NoMemory>
    requires { IsSound (T.mesh table.now) }
    ensures { OnOk result (into.new.items ≡ into.old.items
        ++ filter (λ f. is_face_near (T.mesh table.now) at.now f) items.now) }
{
    for item in items {
        put_if_near(table, at, *item, into)?;
    }
    Ok(())
}

/// Puts the faces near the extent at the end, by rising id: those that the grid finds are tested.
fn put_found<T: FaceTable>(
    alloc: Global,
    table: &T,
    grid: &Grid,
    at: &Extent,
    into: &mut Vec<FaceId>,
) -> Result<(), NoMemory>
    requires sound { IsSound (T.mesh table.now) }
    requires boxed { AreBoxed (Some grid.now) (T.mesh table.now) }
    requires empty { into.old.items ≡ [] }
    ensures { OnOk result (into.new.items ≡ faces_near (T.mesh table.now) at.now) }
{
    let mut found = Vec::with_capacity(alloc, FOUND)?;
    grid.near(*at, &mut found)?;
    put_near(table, at, &found, into)
}

/// Sets `into` to the faces near the extent, by rising id: those that the grid finds are tested. Where memory is wanting,
/// `into` is empty.
pub(crate) fn near_in<T: FaceTable>(
    alloc: Global,
    table: &T,
    grid: &Grid,
    at: &Extent,
    into: &mut Vec<FaceId>,
) -> Result<(), NoMemory>
    requires sound { IsSound (T.mesh table.now) }
    requires boxed { AreBoxed (Some grid.now) (T.mesh table.now) }
    ensures ok { OnOk result (into.new.items ≡ faces_near (T.mesh table.now) at.now) }
    ensures err { OnErr result (into.new.items ≡ []) }
{
    into.clear();
    if let Err(e) = put_found(alloc, table, grid, at, into) {
        into.clear();
        return Err(e);
    }
    Ok(())
}
