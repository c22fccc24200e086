//! The shift of a vertex, looked up among shifts by rising id.
ghost use Rattle.std.specs.Prelude.{◌≡◌, ◌==◌, IsTrue, Some, IfSome, map};
ghost use Rattle.std.specs.List.{find};
ghost use Rattle.std.specs.List.Sorted.{IsStrictlySortedBy, IsSearchInRange, IsBinarySearchResult};
ghost use Rattle.std.specs.Ordering.{nat_cmp};
ghost use Rattle.std.specs.Option.{option_map};
ghost use Rattle.pair_scan.specs.Lookup.{IsPlaceOf};

use grid_base::Shift;
use mesh_base::{ShiftOf, VertexId};

// The place of a vertex among the shifts, or where it would stand.
fn search(by: &[ShiftOf], v: VertexId) -> Result<usize, usize>
    ensures { IsBinarySearchResult (λ s. nat_cmp s.v v) by.now result }
{
    by.binary_search_by_key(&v.0, |s| s.v.0)
}

// The shift at a place, if it is the vertex's.
fn shift_at(by: &[ShiftOf], place: usize, v: VertexId) -> Option<Shift>
    requires rising { IsStrictlySortedBy nat_cmp (map (λ s. s.v) by.now) }
    ensures { IfSome result
        (λ s. Some s ≡ option_map (λ s. s.by) (find (λ s. s.v == v) by.now)) }
{
    match by.get(place) {
        Some(s) => { if s.v == v { Some(s.by) } else { None } }
        None => None,
    }
}

// The shift of a vertex, by a search; None where none is named.
fn find_shift(by: &[ShiftOf], v: VertexId) -> Option<Shift>
    requires rising { IsStrictlySortedBy nat_cmp (map (λ s. s.v) by.now) }
    ensures { result ≡ option_map (λ s. s.by) (find (λ s. s.v == v) by.now) }
{
    match search(by, v) {
        Ok(place) => match by.get(place) {
            Some(s) => Some(s.by),
            None => None,
        },
        Err(_) => None,
    }
}

/// The shift of a vertex; None where none is named. Where each vertex is named and the ids have no gap, it stands at the place
/// before its id.
pub(crate) fn shift_of(by: &[ShiftOf], v: VertexId) -> Option<Shift>
    requires rising { IsStrictlySortedBy nat_cmp (map (λ s. s.v) by.now) }
    ensures { result ≡ option_map (λ s. s.by) (find (λ s. s.v == v) by.now) }
{
    match shift_at(by, v.0.wrapping_sub(1) as usize, v) {
        Some(s) => Some(s),
        None => find_shift(by, v),
    }
}

// Whether the shift at a place is the vertex's.
fn is_place_of(by: &[ShiftOf], place: usize, v: VertexId) -> bool
    requires { IsStrictlySortedBy nat_cmp (map (λ s. s.v) by.now) }
    ensures { IsTrue result → IsPlaceOf by.now v (Some place) }
{
    match by.get(place) {
        Some(s) => s.v == v,
        None => false,
    }
}

// The place of a vertex among shifts, by a search; None where none is named.
fn find_place(by: &[ShiftOf], v: VertexId) -> Option<usize>
    requires { IsStrictlySortedBy nat_cmp (map (λ s. s.v) by.now) }
    ensures { IsPlaceOf by.now v result }
{
    match search(by, v) {
        Ok(place) => match by.get(place) {
            Some(_s) => Some(place),
            None => None,
        },
        Err(_) => None,
    }
}

/// The place of a vertex among shifts by rising id; None where none is named. Takes time in proportion to the logarithm of
/// their number, and none where it is the place before the id.
pub fn place_of(by: &[ShiftOf], v: VertexId) -> Option<usize>
    requires { IsStrictlySortedBy nat_cmp (map (λ s. s.v) by.now) }
    ensures { IsPlaceOf by.now v result }
{
    let place = v.0.wrapping_sub(1) as usize;
    if is_place_of(by, place, v) {
        return Some(place);
    }
    find_place(by, v)
}
