use crate::target::Target;
use mesh_field::Fields;
use mesh_sizing::Sizing;

/// What a run goes by: how its meshes are saved, the stored fields that its directives may name, and the sizing that a directive may go
/// by.
#[derive(Drop)]
pub struct RunTerms<'a, F, G> {
    pub to: Target<'a>,
    pub fields: &'a Fields<F>,
    pub sizing: &'a Sizing<G>,
}
