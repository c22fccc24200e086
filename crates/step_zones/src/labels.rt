//! The labels of vertices, in a list beside the shifts that are asked of them.
ghost use Rattle.std.specs.Prelude.{◌≡◌, ◌==◌, [], ◌∷◌, map, length, IfOk, IsOk};
ghost use Rattle.std.specs.List.{list_all};
ghost use Rattle.std.specs.List.Sorted.{IsStrictlySortedBy};
ghost use Rattle.std.specs.Ordering.{nat_cmp};
ghost use Rattle.step_zones.specs.Chains.{is_one_of};
ghost use Rattle.step_zones.specs.Ranks.{label_by, least_of, relabelled, relabelled_at, joined_in, joined_all, HasPlaces, AreAlone};

use grid_base::NoMemory;
use mesh_base::{Ids, ShiftOf, Surface, VertexId};
use pair_scan::{Pairs, five_of, place_of};
use std::alloc::Global;

/// Each vertex with itself as label.
pub(crate) fn alone(alloc: Global, asked: &[ShiftOf]) -> Result<Ids, NoMemory>
    ensures { IfOk result (λ labels. labels ≡ map (λ s. s.v) asked.now) }
{
    let labels = asked.iter().map(|s| s.v).collect(alloc)?;
    Ok(Ids::from_vec(labels))
}

// The label of a vertex; the vertex itself, where none is named.
fn label_of(asked: &[ShiftOf], labels: &[VertexId], v: VertexId) -> VertexId
    requires rising { IsStrictlySortedBy nat_cmp (map (λ s. s.v) asked.now) }
    requires each { length labels.now ≡ length asked.now }
    ensures { result ≡ label_by asked.now labels.now v }
{
    match place_of(asked, v) {
        Some(place) => labels[place],
        None => v,
    }
}

// The labels of five vertices.
fn five_labels(asked: &[ShiftOf], labels: &[VertexId], five: &[VertexId; 5]) -> [VertexId; 5]
    requires rising { IsStrictlySortedBy nat_cmp (map (λ s. s.v) asked.now) }
    requires each { length labels.now ≡ length asked.now }
    ensures { result ≡ map (label_by asked.now labels.now) five.now }
{
    [
        label_of(asked, labels, five[0]),
        label_of(asked, labels, five[1]),
        label_of(asked, labels, five[2]),
        label_of(asked, labels, five[3]),
        label_of(asked, labels, five[4]),
    ]
}

// The lesser of two labels.
fn lesser(a: VertexId, b: VertexId) -> VertexId
    ensures { result ≡ least_of (a ∷ b ∷ []) }
{
    VertexId(a.0.min(b.0))
}

// The least of five labels.
fn least_of(touched: &[VertexId; 5]) -> VertexId
    ensures { result ≡ least_of touched.now }
{
    lesser(
        touched[0],
        lesser(
            touched[1],
            lesser(touched[2], lesser(touched[3], touched[4])),
        ),
    )
}

// Whether five labels are one.
fn are_one(touched: &[VertexId; 5], first: VertexId) -> bool
    ensures { result ≡ list_all (λ l. l == first) touched.now }
{
    touched.iter().all(|l| *l == first)
}

// Whether a label is one of five.
fn is_one_of(touched: &[VertexId; 5], l: VertexId) -> bool
    ensures { result ≡ is_one_of touched.now l }
{
    touched.iter().any(|k| *k == l)
}

// A label, once the blocks of five labels are joined.
fn relabelled(touched: &[VertexId; 5], least: VertexId, l: VertexId) -> VertexId
    requires { least ≡ least_of touched.now }
    ensures { result ≡ relabelled touched.now l }
{
    if is_one_of(touched, l) { least } else { l }
}

// Joins the blocks of five labels, as far as they stand at some places.
fn relabel(touched: &[VertexId; 5], places: &[usize], labels: &mut Ids)
    ensures { labels.new ≡ relabelled_at touched.now places.now 0 labels.old }
{
    let least = least_of(touched);
    for place in places {
        if let Some(l) = labels.get(*place) {
            let l = relabelled(touched, least, *l);
            labels.set(*place, l);
        }
    }
}

// Puts the place of a vertex at the end of the list, where it has one.
fn put_place(asked: &[ShiftOf], v: VertexId, places: &mut Vec<usize>) -> Result<(), NoMemory>
    requires rising { IsStrictlySortedBy nat_cmp (map (λ s. s.v) asked.now) }
    ensures { IsOk result → HasPlaces asked.now (v ∷ []) places.old.items places.new.items }
{
    if let Some(place) = place_of(asked, v) {
        places.push(place)?;
    }
    Ok(())
}

// Puts the places of five vertices at the end of the list.
fn put_places(
    asked: &[ShiftOf],
    five: &[VertexId; 5],
    places: &mut Vec<usize>,
) -> Result<(), NoMemory>
    requires rising { IsStrictlySortedBy nat_cmp (map (λ s. s.v) asked.now) }
    ensures { IsOk result → HasPlaces asked.now five.now places.old.items places.new.items }
{
    for v in five {
        put_place(asked, *v, places)?;
    }
    Ok(())
}

// Joins the blocks of five vertices. Where they are in one block already nothing is left to do.
fn join(
    asked: &[ShiftOf],
    labels: &mut Ids,
    places: &mut Vec<usize>,
    five: &[VertexId; 5],
) -> Result<(), NoMemory>
    requires rising { IsStrictlySortedBy nat_cmp (map (λ s. s.v) asked.now) }
    requires each { length labels.old ≡ length asked.now }
    requires alone { AreAlone asked.now places.old.items labels.old }
    ensures joined { IsOk result → labels.new ≡ joined_in asked.now labels.old five.now }
    ensures alone { IsOk result → AreAlone asked.now places.new.items labels.new }
{
    let touched = five_labels(asked, labels.as_slice(), five);
    if !are_one(&touched, touched[0]) {
        put_places(asked, five, places)?;
        relabel(&touched, places.as_slice(), labels);
    }
    Ok(())
}

/// Joins the blocks of the vertices of each of the pairs, in order. `places` has the places of all vertices that were in a block with
/// others, and more are put at its end. A pair that joins blocks takes time in proportion to these, and one whose vertices are in one
/// block already does not: as each that joins leaves fewer blocks, all rounds together have fewer of these than there are vertices.
pub(crate) fn join_all<S: Surface>(
    mesh: &S,
    asked: &[ShiftOf],
    labels: &mut Ids,
    places: &mut Vec<usize>,
    hits: &Pairs,
) -> Result<(), NoMemory>
    requires rising { IsStrictlySortedBy nat_cmp (map (λ s. s.v) asked.now) }
    requires each { length labels.old ≡ length asked.now }
    requires alone { AreAlone asked.now places.old.items labels.old }
    ensures joined { IsOk result →
        labels.new ≡ joined_all (S.mesh mesh.now) asked.now labels.old hits.now }
    ensures alone { IsOk result → AreAlone asked.now places.new.items labels.new }
{
    for name in hits.as_slice() {
        let five = five_of(mesh, name);
        join(asked, labels, places, &five)?;
    }
    Ok(())
}
