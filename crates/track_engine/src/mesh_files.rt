ghost use Rattle.grid_base.specs.declared.TheConstants.{DECIMALS_MAX};
ghost use Rattle.std.specs.Prelude.{◌≡◌, ◌≤◌, ◌<◌, ◌+◌, ◌^◌, drop, codes, IfOk, OnOk, OnErr, string_bytes};
ghost use Rattle.outside_io.specs.Outside.{Counts};
ghost use Rattle.track_engine.specs.Calls.{EngineSaves, SavesOneMore};
ghost use Rattle.track_engine.specs.Effects.{mesh_line};
ghost use Rattle.track_engine.specs.Saved.{file_name};
ghost use Rattle.track_engine.specs.Targets.{target_of};

use crate::engine::Engine;
use crate::target::Target;
use grid_base::NoMemory;
use itoa::Buffer;
use log_text::LogLine;
use log_write::Listener;
use mesh_base::Surface;
use obj_text::obj_of;
use outside_io::Stop;
use std::alloc::Global;

// What stands before digits that are fewer than six.
fn zeros(count: usize) -> &'static str
    ensures { result.now ≡ drop count (codes "000000") }
{
    match count {
        0 => "000000",
        1 => "00000",
        2 => "0000",
        3 => "000",
        4 => "00",
        5 => "0",
        _ => "",
    }
}

/// The name of the file of mesh `k`: the prefix, `-`, the number in six digits or more, and `.obj`. NoMemory at any prefix.
pub fn file_name(alloc: Global, prefix: &str, k: u32) -> Result<String, NoMemory>
    ensures { IfOk result (λ name. string_bytes name ≡ file_name prefix.now k) }
{
    let mut buffer = Buffer::new();
    let digits = buffer.format(k);
    let mut name = String::from_str(alloc, prefix)?;
    name.push_str("-")?;
    name.push_str(zeros(digits.len()))?;
    name.push_str(digits)?;
    name.push_str(".obj")?;
    Ok(name)
}

impl<S: Surface> Engine<S> {
    // The line of the mesh.
    fn mesh_line(&self) -> LogLine
        ensures { result ≡ mesh_line self.now.run.saved (S.mesh self.now.mesh) }
    {
        LogLine::Mesh {
            k: self.run.saved,
            vertices: self.mesh.vertices(),
            faces: self.mesh.faces(),
        }
    }

    /// Saves the mesh: its line is written, and then the mesh is stored. After Ok, one mesh more is saved. One saved mesh
    /// more can be counted, and the decimals are within their limit.
    pub fn save<O: Listener>(
        &mut self,
        alloc: Global,
        to: Target<'_>,
        outside: &mut O,
    ) -> Result<(), Stop>
        requires few { to.decimals ≤ DECIMALS_MAX }
        requires room { self.old.run.saved + 1 < 2 ^ 32 }
        ensures saves { EngineSaves S.mesh S.kept O.around self outside (target_of to.entry) result }
        ensures state { OnOk result (SavesOneMore S.mesh S.kept self) }
        ensures rest { (self.new.mesh ≡ self.old.mesh)
            × (self.new.run.groups ≡ self.old.run.groups) }
        ensures left { OnErr result (self.new ≡ self.old) }
        ensures counts { Counts (O.around outside.old) (O.around outside.new) result }
    {
        let text = obj_of(alloc, &self.mesh, to.decimals)?;
        let name = file_name(alloc, to.prefix, self.run.saved)?;
        outside.tell(alloc, &self.mesh_line())?;
        outside.store(&name, &text)?;
        self.run.saved += 1;
        Ok(())
    }
}
