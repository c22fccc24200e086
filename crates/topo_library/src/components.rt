//! The components of a mesh, as a caller in C gets them.
ghost use Rattle.std.specs.Prelude.{◌≡◌, ◌++◌, pos, ◌+ℤ◌, ◌*ℤ◌, ◌^◌, map, IfOk};
ghost use Rattle.mesh_measure.specs.Components.{each_component};
ghost use Rattle.topo_library.specs.Components.{low_word, high_word, told_component, told_components};

use grid_base::{Items, NoMemory};
use mesh_base::Surface;
use mesh_measure::{Component, each_component};
use std::alloc::Global;

/// A component of a mesh: the least id of its vertices, how many faces it has, its Euler number, and six times its volume in cubes of
/// a grid unit, with its sign, as two words: it is the high one times 2^64, plus the low one.
#[repr(C)]
#[derive(Clone, Copy, Debug, PartialEq, Eq)]
pub struct TopoComponent {
    pub vertex: u32,
    pub faces: u32,
    pub euler: i64,
    pub volume6_low: u64,
    pub volume6_high: i64,
}

/// The components of a mesh, in order of their least faces.
pub type TopoComponents = Items<TopoComponent>;

// How many numbers a word has.
const WORD: u128 = 1 << 64;

// A number as two words: the low one, and the high one.
fn words_of(number: i128) -> (u64, i64)
    ensures low { result.0 ≡ low_word number }
    ensures high { result.1 ≡ high_word number }
    ensures whole { (pos result.0 +ℤ result.1 *ℤ pos (2 ^ 64)) ≡ number }
{
    if number >= 0 {
        let n = number as u128;
        ((n % WORD) as u64, (n / WORD) as i64)
    } else {
        let n = (-1 - number) as u128;
        (u64::MAX - (n % WORD) as u64, -1 - (n / WORD) as i64)
    }
}

// A component as a row.
fn told_component(component: &Component) -> TopoComponent
    ensures { result ≡ told_component component.now }
{
    let (low, high) = words_of(component.volume6);
    TopoComponent {
        vertex: component.vertex,
        faces: component.faces,
        euler: component.euler,
        volume6_low: low,
        volume6_high: high,
    }
}

// The rows of some components.
fn told_rows(alloc: Global, components: &[Component]) -> Result<TopoComponents, NoMemory>
    ensures { IfOk result (λ rows. rows ≡ map told_component components.now) }
{
    let mut rows = TopoComponents::new(alloc);
    for component in components {
        rows.push(told_component(component))?;
    }
    Ok(rows)
}

/// The components of a mesh, in order of their least faces. Refuses only where there is no memory.
pub fn told_components<S: Surface>(alloc: Global, mesh: &S) -> Result<TopoComponents, NoMemory>
    ensures { IfOk result (λ rows. rows ≡ told_components (S.mesh mesh.now)) }
{
    let components = each_component(alloc, mesh)?;
    told_rows(alloc, components.as_slice())
}
