//! The names that the words of a command line tell.
ghost use Rattle.std.specs.Prelude.{◌≤◌};
ghost use Rattle.grid_base.specs.declared.TheConstants.{DECIMALS_MAX};

use mesh_base::{FileWord, Scale};
use std::alloc::Global;
use track_input::{Command, Format, LogFiles, MeshFile, command_of};

/// What a command does with its mesh once all is read.
#[derive(Clone, Copy, PartialEq, Eq)]
pub enum Work {
    /// It is tested at rest, and steps are taken.
    Steps,
    /// It is tested at rest, and the lines of a log are taken.
    Log,
    /// It is stored in another format.
    Convert,
    /// It is looked for what is wrong with it.
    Check,
}

/// The names of the files that a command reads, the format of its mesh, how large both may be, and the decimals of its points. A
/// command of one file has that as each, and one without a proof the log or the steps as that: this is the name that is read last.
/// What it stores has the prefix in front, or is a mesh of a name and a format, where it stores meshes.
#[derive(Clone, Copy)]
pub struct Names<'a> {
    pub mesh: &'a str,
    pub other: &'a str,
    pub proof: &'a str,
    pub format: Format,
    pub prefix: Option<&'a str>,
    pub to: Option<&'a str>,
    pub stored: Format,
    pub scale: Scale,
    pub decimals: u8,
    pub work: Work,
    ghost few: { decimals ≤ DECIMALS_MAX },
}

// The names of a mesh and of a log that is read.
fn log_names<'a>(files: LogFiles<'a>, prefix: Option<&'a str>) -> Names<'a>
    requires { files.decimals ≤ DECIMALS_MAX }
{
    Names {
        mesh: files.mesh,
        other: files.log,
        proof: files.log,
        format: Format::Obj,
        prefix,
        to: None,
        stored: Format::Obj,
        scale: files.scale,
        decimals: files.decimals,
        work: Work::Log,
    }
}

// The name of a mesh file that is read alone, and where it is stored, where it is.
fn alone<'a>(mesh: MeshFile<'a>, to: Option<MeshFile<'a>>, scale: Scale, decimals: u8) -> Names<'a>
    requires { decimals ≤ DECIMALS_MAX }
{
    let (to, stored, work) = match to {
        Some(to) => (Some(to.name), to.format, Work::Convert),
        None => (None, mesh.format, Work::Check),
    };
    Names {
        mesh: mesh.name,
        other: mesh.name,
        proof: mesh.name,
        format: mesh.format,
        prefix: None,
        to,
        stored,
        scale,
        decimals,
        work,
    }
}

/// The names that the words tell, if they are of a listed form that has files.
pub fn names_of(alloc: Global, words: &[String]) -> Option<Names<'_>> {
    match command_of(alloc, words).ok()?? {
        Command::Track {
            mesh,
            steps,
            prefix,
            scale,
            decimals,
        } => Some(Names {
            mesh,
            other: steps,
            proof: steps,
            format: Format::Obj,
            prefix: Some(prefix),
            to: None,
            stored: Format::Obj,
            scale,
            decimals,
            work: Work::Steps,
        }),
        Command::Convert {
            from,
            to,
            scale,
            decimals,
        } => Some(alone(from, Some(to), scale, decimals)),
        Command::Measure(files) => Some(log_names(files, None)),
        Command::Prove(files) => Some(log_names(files, None)),
        Command::Verify(given) => Some(Names {
            mesh: given.files.mesh,
            other: given.files.log,
            proof: given.proof,
            format: Format::Obj,
            prefix: None,
            to: None,
            stored: Format::Obj,
            scale: given.files.scale,
            decimals: given.files.decimals,
            work: Work::Log,
        }),
        Command::Replay(given) => Some(log_names(given.files, Some(given.prefix))),
        Command::Check {
            mesh,
            scale,
            decimals,
        } => Some(alone(mesh, None, scale, decimals)),
        Command::Try { .. } => None,
    }
}

/// How many cubes along an edge the job has that the words have made, if they ask for one.
pub fn cubes_of(alloc: Global, words: &[String]) -> Option<u8> {
    match command_of(alloc, words).ok()?? {
        Command::Try { cubes, .. } => Some(cubes),
        _ => None,
    }
}

/// The name of one of the files.
pub fn name_of<'a>(names: Names<'a>, file: FileWord) -> &'a str {
    match file {
        FileWord::Mesh => names.mesh,
        FileWord::Steps | FileWord::Log => names.other,
        FileWord::Proof => names.proof,
    }
}
