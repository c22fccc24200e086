//! A log that is begun at the mesh as it is, meshes that are saved in it, and its end.
ghost use Rattle.std.specs.Prelude.{◌≡◌, ◌∷◌, [], true, false, Ok, None, IfErr, OnOk, OnErr};
ghost use Rattle.step_text.specs.declared.Directive.TheVariants as directive;
ghost use Rattle.log_text.specs.declared.LogLine.TheVariants.{End};
ghost use Rattle.log_write.specs.Kept.{lines_in, keeps as keeps_told, text_where};
ghost use Rattle.log_write.specs.Written.{Says};
ghost use Rattle.track_engine.specs.Answers.{Nothing};
ghost use Rattle.track_engine.specs.Effects.{effect_of, mesh_line};
ghost use Rattle.track_engine.specs.Invariant.{HasRoom};
ghost use Rattle.track_engine.specs.Parts.{Writes};
ghost use Rattle.track_held.specs.Heads.{solid_lines, head_lines, begin_effect, end_effect, MeshesAreMadeDense, DenseMeshesAreRead};

use crate::held::Held;
use crate::id_lines::{head_version, tell_ids};
use crate::queries::solid_vertices;
use grid_base::NoMemory;
use log_text::LogLine;
use log_write::{KeptLines, Listener};
use mesh_base::{Surface, UseWhy, VertexId};
use outside_io::Stop;
use std::alloc::Global;

/// Of a mesh that is made of points and faces ids are dense: they run from 1 on, up to the next one, with none left out. Where that is so,
/// the mesh is, but for its solid vertices, the one that its text gives where it is read.
pub fn dense_ids_are_those_of_a_file()
    ensures made { MeshesAreMadeDense }
    ensures read { DenseMeshesAreRead }
{}

// The line of a mesh, with its number.
fn mesh_line<S: Surface>(mesh: &S, k: u32) -> LogLine
    ensures { result ≡ mesh_line k (S.mesh mesh.now) }
{
    LogLine::Mesh {
        k,
        vertices: mesh.vertices(),
        faces: mesh.faces(),
    }
}

// The same, told.
fn tell_mesh<S: Surface, O: Listener>(
    alloc: Global,
    mesh: &S,
    k: u32,
    outside: &mut O,
) -> Result<(), Stop>
    ensures { Says (mesh_line k (S.mesh mesh.now) ∷ [])
        (O.around outside.old) (O.around outside.new) result }
{
    outside.tell(alloc, &mesh_line(mesh, k))
}

// A line for each vertex, that it is solid.
fn tell_solids<O: Listener>(alloc: Global, vertices: &[u32], outside: &mut O) -> Result<(), Stop>
    ensures { Says (solid_lines vertices.now)
        (O.around outside.old) (O.around outside.new) result }
{
    for v in vertices {
        outside.tell(alloc, &LogLine::Solid { v: VertexId(*v) })?;
    }
    Ok(())
}

// The first lines of a log of a mesh.
fn tell_head<S: Surface, O: Listener>(alloc: Global, mesh: &S, outside: &mut O) -> Result<(), Stop>
    ensures { OnOk result (Says (head_lines (S.mesh mesh.now))
        (O.around outside.old) (O.around outside.new) result) }
{
    let solids = solid_vertices(alloc, mesh)?;
    outside.tell(
        alloc,
        &LogLine::First {
            version: head_version(mesh),
        },
    )?;
    tell_mesh(alloc, mesh, 0, outside)?;
    tell_ids(alloc, mesh, outside)?;
    tell_solids(alloc, solids.as_slice(), outside)
}

// No lines; those that are told are kept, or not.
fn no_lines(alloc: Global, keeps: bool) -> KeptLines
    ensures keeps { keeps_told result ≡ keeps }
    ensures lines { lines_in result ≡ [] }
{
    let mut log = KeptLines::new(alloc);
    log.keep(keeps);
    log
}

impl<S: Surface> Held<S> {
    ghost use Rattle.track_held.specs.Held.{engine_in, held_state, keeps_lines, log_in, goes_on};
    ghost use Rattle.track_held.specs.Writing.{WritesEffect};

    /// The number that the next mesh gets that is saved.
    pub fn saved(&self) -> u32
        ensures { result ≡ (held_state self.now).saved }
    {
        self.engine.run.saved
    }

    /// Begins a log at the mesh as it is: what was told is forgotten, and the first lines of the log are told. Mesh 0 is
    /// then saved. Where ids are not dense, they tell which there are. Where memory is wanting nothing is changed. That no group is open is
    /// for the caller to ask.
    pub fn begin_log(&mut self, alloc: Global) -> Result<(), NoMemory>
        ensures tells { OnOk result (Writes (begin_effect (held_state self.old))
            (held_state self.new) (text_where (keeps_lines self.old) []) (log_in self.new) (Ok None)) }
        ensures goes_on { goes_on self.new ≡ goes_on self.old }
        ensures left { OnErr result (self.new ≡ self.old) }
    {
        let mut log = no_lines(alloc, self.log.keeps());
        match tell_head(alloc, &self.engine.mesh, &mut log) {
            Ok(()) => {
                self.log = log;
                self.engine.run.saved = 1;
                Ok(())
            }
            Err(_) => Err(NoMemory),
        }
    }

    /// Tells that the mesh is saved, with the next number, and counts it; who asks for it keeps the mesh. It stops in the
    /// line for want of memory, and goes on no more. Asked only while it goes on and has room (`has_room`).
    pub fn save(&mut self, alloc: Global) -> Result<Option<UseWhy>, Stop>
        requires goes_on { goes_on self.old ≡ true }
        requires room { HasRoom 1 (engine_in self.old).run }
        ensures goes_on { OnOk result (goes_on self.new ≡ true) }
        ensures stopped { OnErr result (goes_on self.new ≡ false) }
        // There is no other cause to stop.
        ensures why { IfErr result (λ stop. stop ≡ Stop.NoMemory) }
        ensures tells { WritesEffect (effect_of Nothing directive.Save) self result }
    {
        let k = self.engine.run.saved;
        match tell_mesh(alloc, &self.engine.mesh, k, &mut self.log) {
            Ok(()) => {
                self.engine.run.saved += 1;
                Ok(None)
            }
            Err(_stop) => {
                self.goes_on = false;
                Err(Stop::NoMemory)
            }
        }
    }

    /// Tells the last line of a log that is done. It stops in the line for want of memory, and goes on no more. The state
    /// stays. Asked only while it goes on.
    pub fn end_log(&mut self, alloc: Global) -> Result<Option<UseWhy>, Stop>
        requires goes_on { goes_on self.old ≡ true }
        ensures goes_on { OnOk result (goes_on self.new ≡ true) }
        ensures stopped { OnErr result (goes_on self.new ≡ false) }
        // There is no other cause to stop.
        ensures why { IfErr result (λ stop. stop ≡ Stop.NoMemory) }
        ensures tells { WritesEffect end_effect self result }
        ensures state { held_state self.new ≡ held_state self.old }
    {
        match self.log.tell(alloc, &LogLine::End) {
            Ok(()) => Ok(None),
            Err(_stop) => {
                self.goes_on = false;
                Err(Stop::NoMemory)
            }
        }
    }
}
