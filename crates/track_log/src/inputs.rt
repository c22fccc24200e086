//! A mesh and a log, fetched and read.
ghost use Rattle.std.specs.Prelude.{◌≡◌, ◌≤◌, length, None, IfOk};
ghost use Rattle.grid_base.specs.declared.TheConstants.{TEXT_MAX, DECIMALS_MAX};
ghost use Rattle.outside_io.specs.Outside.{OnlyLooks, files_before};
ghost use Rattle.track_input.specs.Reading.{AreGood};
ghost use Rattle.track_log.specs.Fetching.{FetchesNamed};
ghost use Rattle.track_log.specs.Preparing.{ReadsLines, ReadsTexts, Tests, ReadsAndTests, PreparesNamed};

use crate::refusal::LogRefusal;
use grid_base::NoMemory;
use line_text::ReadFault;
use log_read::LogReader;
use log_text::Refusal;
use mesh_base::{FileWord, MeshLists, Scale, ShapeRefusal};
use mesh_journal::JournalMesh;
use mesh_shape::shape;
use obj_text::read_obj;
use outside_io::{Fetched, Outside, Stop};
use pair_scan::first_meeting;
use std::alloc::Global;
use track_input::{LogFiles, fetch_text};

/// The bytes of a mesh file and of the file of a log, or a refusal.
#[derive(Drop)]
pub enum FetchedLog {
    /// The first of the two that is missing or longer than a text may be.
    No(LogRefusal),
    /// The bytes of the mesh file, and those of the log.
    Yes(Vec<u8>, Vec<u8>),
}

/// What the texts of a mesh and of a log give.
#[derive(Drop)]
pub enum Texts {
    /// The first refusal that applies: the mesh's text, its shape, the log's text.
    No(LogRefusal),
    /// Lists of good shape, and the lines of the log.
    Yes(MeshLists, LogReader),
}

/// What is given of which nothing is refused before the lines of the log are taken, or the first refusal that applies.
#[derive(Drop)]
pub enum PreparedLog {
    /// The first refusal that applies, in the order in which the work is done.
    No(LogRefusal),
    /// The mesh, of which no edge meets a face that shares no vertex with it, and the lines of the log.
    Yes(JournalMesh, LogReader),
}

// The text of a log, read after lists of good shape.
fn read_lines(
    alloc: Global,
    scale: Scale,
    lists: MeshLists,
    log: Vec<u8>,
) -> Result<Texts, NoMemory>
    requires good { AreGood scale lists }
    requires log_length { length log.items ≤ TEXT_MAX }
    ensures { IfOk result (ReadsLines scale lists log.items) }
{
    match LogReader::of(alloc, scale, log) {
        Ok(lines) => Ok(Texts::Yes(lists, lines)),
        Err(ReadFault::NoMemory) => Err(NoMemory),
        Err(ReadFault::Text(fault)) => Ok(Texts::No(LogRefusal::Log(fault))),
    }
}

/// Reads the text of a mesh, the points with so many decimals, tests the shape of its lists, and reads the text of a log, each within the
/// limits of a scale. The bytes are given up: those of the mesh when it is read. NoMemory at any texts.
pub fn read_texts(
    alloc: Global,
    scale: Scale,
    decimals: u8,
    mesh: Vec<u8>,
    log: Vec<u8>,
) -> Result<Texts, NoMemory>
    requires few { decimals ≤ DECIMALS_MAX }
    requires mesh_length { length mesh.items ≤ TEXT_MAX }
    requires log_length { length log.items ≤ TEXT_MAX }
    ensures { IfOk result (ReadsTexts scale decimals mesh.items log.items) }
{
    let lists = match read_obj(alloc, &mesh, decimals) {
        Ok(lists) => lists,
        Err(ReadFault::NoMemory) => return Err(NoMemory),
        Err(ReadFault::Text(fault)) => {
            return Ok(Texts::No(LogRefusal::Input(Refusal::Mesh(fault))));
        }
    };
    match shape(alloc, scale, &lists) {
        Ok(()) => read_lines(alloc, scale, lists, log),
        Err(ShapeRefusal::NoMemory) => Err(NoMemory),
        Err(ShapeRefusal::Shape(fault)) => {
            Ok(Texts::No(LogRefusal::Input(Refusal::Shape(fault))))
        }
    }
}

/// Tests the mesh of lists, with the limits of a scale, for an edge and a face that meet and share no vertex: the refusal of the first of them, or the mesh and the lines.
/// NoMemory at any lists.
pub fn test_mesh(
    alloc: Global,
    scale: Scale,
    lists: &MeshLists,
    lines: LogReader,
) -> Result<PreparedLog, NoMemory>
    requires good { AreGood scale lists.now }
    ensures { IfOk result (Tests scale lists.now lines) }
{
    let mesh = JournalMesh::of(alloc, scale, lists)?;
    match first_meeting(alloc, &mesh)? {
        None => Ok(PreparedLog::Yes(mesh, lines)),
        Some(pair) => Ok(PreparedLog::No(LogRefusal::Input(Refusal::Meets(pair)))),
    }
}

// Reads both texts and tests the mesh.
fn read_and_test(
    alloc: Global,
    scale: Scale,
    decimals: u8,
    mesh: Vec<u8>,
    log: Vec<u8>,
) -> Result<PreparedLog, NoMemory>
    requires few { decimals ≤ DECIMALS_MAX }
    requires mesh_length { length mesh.items ≤ TEXT_MAX }
    requires log_length { length log.items ≤ TEXT_MAX }
    ensures { IfOk result (ReadsAndTests scale decimals mesh.items log.items) }
{
    match read_texts(alloc, scale, decimals, mesh, log)? {
        Texts::No(why) => Ok(PreparedLog::No(why)),
        Texts::Yes(lists, lines) => test_mesh(alloc, scale, &lists, lines),
    }
}

/// Fetches a mesh file and then the file of a log, each of at most the greatest length of a text of its scale. Nothing is written or stored.
pub fn fetch_log<O: Outside>(
    alloc: Global,
    files: LogFiles<'_>,
    outside: &mut O,
) -> Result<FetchedLog, Stop>
    ensures fetches { IfOk result (FetchesNamed (files_before O.around outside) files.entry) }
    ensures looks { OnlyLooks (O.around outside.old) (O.around outside.new) result }
{
    let mesh = match fetch_text(alloc, files.scale, outside, files.mesh)? {
        Fetched::Bytes(bytes) => bytes,
        Fetched::Absent => {
            return Ok(FetchedLog::No(LogRefusal::Input(Refusal::Missing {
                file: FileWord::Mesh,
            })));
        }
        Fetched::TooLong(seen) => {
            return Ok(FetchedLog::No(LogRefusal::Input(Refusal::Long {
                file: FileWord::Mesh,
                seen,
            })));
        }
    };
    match fetch_text(alloc, files.scale, outside, files.log)? {
        Fetched::Bytes(log) => Ok(FetchedLog::Yes(mesh, log)),
        Fetched::Absent => Ok(FetchedLog::No(LogRefusal::Input(Refusal::Missing {
            file: FileWord::Log,
        }))),
        Fetched::TooLong(seen) => Ok(FetchedLog::No(LogRefusal::Input(Refusal::Long {
            file: FileWord::Log,
            seen,
        }))),
    }
}

/// Fetches and reads a mesh file and the file of a log, the points with so many decimals, and tests the mesh for an edge and a face that
/// meet and share no vertex. Both files are fetched before a text is read, the mesh file first. Nothing is written or stored.
pub fn prepare_log<O: Outside>(
    alloc: Global,
    files: LogFiles<'_>,
    outside: &mut O,
) -> Result<PreparedLog, Stop>
    requires few { files.decimals ≤ DECIMALS_MAX }
    ensures prepares { IfOk result (PreparesNamed (files_before O.around outside) files.entry) }
    ensures looks { OnlyLooks (O.around outside.old) (O.around outside.new) result }
{
    match fetch_log(alloc, files, outside)? {
        FetchedLog::No(why) => Ok(PreparedLog::No(why)),
        FetchedLog::Yes(mesh, log) => Ok(read_and_test(
            alloc,
            files.scale,
            files.decimals,
            mesh,
            log,
        )?),
    }
}
