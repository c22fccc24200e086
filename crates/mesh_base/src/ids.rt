ghost use Rattle.std.specs.Prelude.{◌≡◌};

use std::marker::Model;

/// A vertex, by its id. Ids count from 1, in the order of making; an id that was given is given again only after a return
/// to a mesh in which it was not yet given. A contract sees the number.
#[derive(Clone, Copy, Debug, PartialEq, Eq, PartialOrd, Ord)]
pub struct VertexId(pub u32);

impl Model for VertexId {
    ghost use Rattle.std.specs.Prelude.{ℕ};

    ghost Value = { ℕ };

    ghost view = { λ v. v.0 };

    ghost inverse = { λ n. record { 0 = n } };
}

/// A face, by its id. Ids count from 1, in the order of making; an id that was given is given again only after a return to
/// a mesh in which it was not yet given. A contract sees the number.
#[derive(Clone, Copy, Debug, PartialEq, Eq, PartialOrd, Ord)]
pub struct FaceId(pub u32);

impl Model for FaceId {
    ghost use Rattle.std.specs.Prelude.{ℕ};

    ghost Value = { ℕ };

    ghost view = { λ f. f.0 };

    ghost inverse = { λ n. record { 0 = n } };
}

/// The three corners of a face, in order.
#[derive(Clone, Copy, Debug, PartialEq, Eq)]
pub struct Corners {
    pub first: VertexId,
    pub second: VertexId,
    pub third: VertexId,
}

impl Corners {
    ghost use Rattle.mesh_base.specs.Changes.{corners_of, corner_list};
    ghost use Rattle.mesh_base.specs.Sides.{follows, has_corner};

    /// Three ids as corners.
    pub fn of(ids: [VertexId; 3]) -> Corners
        ensures { result ≡ corners_of ids }
    {
        Corners {
            first: ids[0],
            second: ids[1],
            third: ids[2],
        }
    }

    /// The corners as an array.
    pub fn list(&self) -> [VertexId; 3]
        ensures { result ≡ corner_list self.now }
    {
        [self.first, self.second, self.third]
    }

    /// Whether `v` follows `u`.
    pub fn follows(&self, u: VertexId, v: VertexId) -> bool
        ensures { result ≡ follows self.now u v }
    {
        self.first == u && self.second == v
            || self.second == u && self.third == v
            || self.third == u && self.first == v
    }

    /// Whether `v` is a corner.
    pub fn has_corner(&self, v: VertexId) -> bool
        ensures { result ≡ has_corner self.now v }
    {
        self.first == v || self.second == v || self.third == v
    }
}

/// The name of a pair: an edge, by its smaller end `a` and its larger end `b`, and a face that has neither as a corner.
#[derive(Clone, Copy, Debug, PartialEq, Eq)]
pub struct PairName {
    pub a: VertexId,
    pub b: VertexId,
    pub face: FaceId,
}
