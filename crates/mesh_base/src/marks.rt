/// Stands for a kept mesh, to which a surface can go back: the one at `place` in the list of kept meshes. A return
/// leaves the first `under` of them.
#[derive(Clone, Copy)]
pub struct Mark {
    pub place: usize,
    pub under: usize,
}
