//! How far the shifts of a step differ. Only speed depends on it.
use grid_base::Shift;
use mesh_base::{Corners, FaceId, ShiftOf, Surface, VertexId};

/// At so many places among the ids the faces are looked at that follow one another there.
const PLACES: u32 = 64;

/// So many faces are looked at together: what follows one another mostly stands together, and two clusters of a list that are
/// near each other reach about as far.
const TOGETHER: u32 = 32;

// The least and the greatest of some numbers.
#[derive(Clone, Copy)]
struct Span {
    low: i32,
    high: i32,
}

impl Span {
    fn of(x: i32) -> Span {
        Span { low: x, high: x }
    }

    fn with(self, x: i32) -> Span {
        Span {
            low: self.low.min(x),
            high: self.high.max(x),
        }
    }

    fn width(self) -> u32 {
        self.high.abs_diff(self.low)
    }
}

// The least and the greatest of some shifts along each axis.
#[derive(Clone, Copy)]
struct Spread {
    x: Span,
    y: Span,
    z: Span,
}

impl Spread {
    fn of(s: Shift) -> Spread {
        Spread {
            x: Span::of(s.x),
            y: Span::of(s.y),
            z: Span::of(s.z),
        }
    }

    fn with(self, s: Shift) -> Spread {
        Spread {
            x: self.x.with(s.x),
            y: self.y.with(s.y),
            z: self.z.with(s.z),
        }
    }

    // The greatest less the least, along the axis where they differ most.
    fn width(self) -> u32 {
        self.x.width().max(self.y.width()).max(self.z.width())
    }
}

// The spread so far, and a shift more.
fn with_shift(so_far: Option<Spread>, s: Shift) -> Option<Spread> {
    match so_far {
        Some(spread) => Some(spread.with(s)),
        None => Some(Spread::of(s)),
    }
}

// The spread so far, and the shift of a vertex more, if it has one.
fn with_vertex(so_far: Option<Spread>, asked: &[ShiftOf], v: VertexId) -> Option<Spread> {
    match asked.binary_search_by_key(&v.0, |s| s.v.0) {
        Ok(place) => match asked.get(place) {
            Some(s) => with_shift(so_far, s.by),
            None => so_far,
        },
        Err(_) => so_far,
    }
}

// The spread so far, and the shifts of the corners of a face more, if it is live.
fn with_face<S: Surface>(
    so_far: Option<Spread>,
    mesh: &S,
    asked: &[ShiftOf],
    f: FaceId,
) -> Option<Spread> {
    match mesh.corners(f) {
        Some(ids) => {
            let c = Corners::of(ids);
            let so_far = with_vertex(so_far, asked, c.first);
            let so_far = with_vertex(so_far, asked, c.second);
            with_vertex(so_far, asked, c.third)
        }
        None => so_far,
    }
}

// The spread of the shifts of the corners of some faces above an id that follow one another.
fn spread_after<S: Surface>(mesh: &S, asked: &[ShiftOf], id: u32) -> u32 {
    let mut spread = None;
    let mut last = id;
    for _ in 0..TOGETHER {
        if let Some(f) = mesh.face_after(last) {
            spread = with_face(spread, mesh, asked, f);
            last = f.0;
        }
    }
    match spread {
        Some(spread) => spread.width(),
        None => 0,
    }
}

/// How far the shifts of vertices differ along an axis that are near each other, as some places among the ids tell.
pub(crate) fn spread_of<S: Surface>(mesh: &S, asked: &[ShiftOf]) -> u32 {
    let apart = mesh.next_face() / PLACES;
    let mut greatest: u32 = 0;
    for k in 0..PLACES {
        greatest = greatest.max(spread_after(mesh, asked, k.saturating_mul(apart)));
    }
    greatest
}

// Whether the shift moves its vertex.
fn moves(s: &ShiftOf) -> bool {
    s.by.x != 0 || s.by.y != 0 || s.by.z != 0
}

/// Whether at least a quarter of the vertices are asked to move.
pub(crate) fn many_move(asked: &[ShiftOf]) -> bool {
    let mut moving: usize = 0;
    for s in asked {
        if moves(s) {
            moving = moving.saturating_add(1);
        }
    }
    moving >= asked.len() / 4
}
