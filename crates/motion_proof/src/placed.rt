//! Where the vertices of a pair begin and end.
ghost use Rattle.std.specs.Prelude.{◌≡◌, IfSome, IsNone};
ghost use Rattle.grid_base.specs.Meeting.{AreWithin};
ghost use Rattle.grid_base.specs.declared.TheConstants.{HALF_MAX};
ghost use Rattle.mesh_base.specs.declared.ids.Corners.{Corners};
ghost use Rattle.mesh_base.specs.Pairs.{IsPair};
ghost use Rattle.mesh_base.specs.Placements.{positions};

use grid_base::Positions;
use mesh_base::{Corners, PairName, Surface};
use pair_paths::Paths;

/// Where a pair begins.
pub(crate) fn starts<P: Paths>(paths: &P, name: &PairName, c: &Corners) -> Positions
    ensures value { result ≡ positions (P.motion paths.now).start
        (record { name = name.now; corners = c.now }) }
    ensures within { AreWithin HALF_MAX result }
{
    Positions {
        a: paths.path_of(name.a).start.wide(),
        b: paths.path_of(name.b).start.wide(),
        c: paths.path_of(c.first).start.wide(),
        d: paths.path_of(c.second).start.wide(),
        e: paths.path_of(c.third).start.wide(),
    }
}

/// Where a pair ends.
pub(crate) fn ends<P: Paths>(paths: &P, name: &PairName, c: &Corners) -> Positions
    ensures value { result ≡ positions (P.motion paths.now).end
        (record { name = name.now; corners = c.now }) }
    ensures within { AreWithin HALF_MAX result }
{
    Positions {
        a: paths.path_of(name.a).end.wide(),
        b: paths.path_of(name.b).end.wide(),
        c: paths.path_of(c.first).end.wide(),
        d: paths.path_of(c.second).end.wide(),
        e: paths.path_of(c.third).end.wide(),
    }
}

/// The corners of the face of a pair; None exactly where the name is that of no pair.
pub(crate) fn corners_of_pair<S: Surface>(mesh: &S, name: &PairName) -> Option<Corners>
    ensures some { IfSome result (λ c.
        IsPair (S.mesh mesh.now) (record { name = name.now; corners = c })) }
    ensures none { IsNone result → (c : Corners) →
        ¬ (IsPair (S.mesh mesh.now) (record { name = name.now; corners = c })) }
{
    if name.a.0 >= name.b.0 {
        return None;
    }
    if mesh.runs(name.a, name.b) == 0 && mesh.runs(name.b, name.a) == 0 {
        return None;
    }
    match mesh.corners(name.face) {
        Some(list) => {
            let c = Corners::of(list);
            if c.has_corner(name.a) || c.has_corner(name.b) {
                None
            } else {
                Some(c)
            }
        }
        None => None,
    }
}
