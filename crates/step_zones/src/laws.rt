//! Laws of impact zones. Each is the contract of a function that does nothing.

ghost use Rattle.std.specs.Prelude.{◌≡◌, ℕ, ◌≤◌, List};
ghost use Rattle.mesh_base.specs.Pairs.{Pair};
ghost use Rattle.step_zones.specs.Zones.{labels};
ghost use Rattle.step_zones.specs.Laws.{FailingPairsAreNamed, LabelsAreChains, BlocksMoveByTheirMeans, FailingPairsLieInTwoBlocks, RoundsHaveFewerBlocks, RoundsAreFew};

/// Two vertices have one label exactly where a chain of the pairs leads from one to the other. The label of a vertex is the
/// least vertex of its block: it is in the block, and no greater than the vertex.
pub fn labels_are_least_vertices()
    ensures chains { LabelsAreChains }
    ensures inside { (hits : List Pair) (v : ℕ) → labels hits (labels hits v) ≡ labels hits v }
    ensures least { (hits : List Pair) (v : ℕ) → labels hits v ≤ v }
{}

/// The shift of a block is within the limit of a shift, so it moves by the mean itself, or by nothing where it holds a solid
/// vertex.
pub fn blocks_move_by_their_means()
    ensures { BlocksMoveByTheirMeans }
{}

/// The failing pairs are those of which `failing` gives the names. Whatever the blocks, a pair of a clear mesh that fails when
/// they move as one lies in at least two of them.
pub fn failing_pairs_lie_in_two_blocks()
    ensures names { FailingPairsAreNamed }
    ensures two { FailingPairsLieInTwoBlocks }
{}

/// In a clear mesh a round after one with a failing pair has fewer blocks. So where a vertex lives, a round has a number below
/// the number of live vertices, where a pair fails in each round before it.
pub fn rounds_are_few()
    ensures fewer_blocks { RoundsHaveFewerBlocks }
    ensures few { RoundsAreFew }
{}
