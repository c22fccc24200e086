ghost use Rattle.std.specs.Prelude.{◌≡◌, [], ◌∷◌, length, OnOk, MatchOption};

use grid_base::NoMemory;
use motion_proof::Tree;
use std::alloc::Global;
use std::marker::Model;

// The nodes above a place of a tree, the nearest first: at each, the tree of its first half where the place lies in its second.
#[derive(Drop)]
pub(crate) struct Nodes {
    // The farthest first.
    nodes: Vec<Option<Tree>>,
}

impl Model for Nodes {
    ghost use Rattle.std.specs.Prelude.{List, Option, reverse};
    ghost use Rattle.std.specs.Coded.{codes};
    ghost use Rattle.motion_proof.specs.declared.certificate.Tree.{Tree};
    ghost use Rattle.motion_proof.specs.contracts.certificate.Tree as tree;

    ghost Value = { List (Option Tree) };

    ghost view = { λ n. reverse n.nodes.items };

    ghost coded = { Prim.hlevel (codes, tree.the_row.coded) };
}

impl Nodes {
    // No node: the place of a whole tree.
    pub(crate) fn new(alloc: Global) -> Nodes
        ensures { result ≡ [] }
    {
        Nodes {
            nodes: Vec::new(alloc),
        }
    }

    pub(crate) fn len(&self) -> usize
        ensures { result ≡ length self.now }
    {
        self.nodes.len()
    }

    // Puts a node below the others.
    pub(crate) fn push(&mut self, node: Option<Tree>) -> Result<(), NoMemory>
        ensures { OnOk result (self.new ≡ node ∷ self.old) }
    {
        self.nodes.push(node)?;
        Ok(())
    }

    // Takes the nearest node away.
    pub(crate) fn pop(&mut self) -> Option<Option<Tree>>
        ensures { MatchOption result ((self.old ≡ []) × (self.new ≡ []))
            (λ node. self.old ≡ node ∷ self.new) }
    {
        self.nodes.pop()
    }
}
