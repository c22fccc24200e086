//! A mesh, a log and a proof of it, fetched and read.
ghost use Rattle.std.specs.Prelude.{◌≡◌, ◌≤◌, ◌<◌, ◌^◌, length, Ok, IfOk};
ghost use Rattle.grid_base.specs.declared.TheConstants.{TEXT_MAX, DECIMALS_MAX};
ghost use Rattle.obj_text.specs.Obj.{lists_of};
ghost use Rattle.proof_text.specs.Laws.{AreProofs};
ghost use Rattle.proof_text.specs.Order.{proofs_of};
ghost use Rattle.outside_io.specs.Outside.{OnlyLooks};
ghost use Rattle.track_input.specs.Named.{proof_names};
ghost use Rattle.track_input.specs.Reading.{AreGood};
ghost use Rattle.track_log.specs.LogJob.{read_of_lists};
ghost use Rattle.track_prove.specs.Verifying.{read_with_proof};
ghost use Rattle.track_prove.specs.Doing.{texts_of, GivesInput, PreparesProof};

use grid_base::NoMemory;
use line_text::ReadFault;
use log_read::LogReader;
use log_text::Refusal;
use mesh_base::{FileWord, MeshLists, Scale};
use mesh_journal::JournalMesh;
use outside_io::{Fetched, Outside, Stop};
use proof_text::ProofReader;
use std::alloc::Global;
use track_input::{ProofFiles, fetch_text};
use track_log::{FetchedLog, LogRefusal, PreparedLog, Texts, fetch_log, read_texts, test_mesh};

// What is given of which nothing is refused before the lines of the log are taken, or the first refusal that applies.
#[derive(Drop)]
pub(crate) enum Inputs {
    // The first refusal that applies, in the order in which the work is done.
    No(LogRefusal),
    // The mesh, of which no edge meets a face that shares no vertex with it, the lines of the log, and the certificates of the proof.
    Yes(JournalMesh, LogReader, ProofReader),
}

// The mesh is tested, behind lists, a log and a proof that were read.
fn test_inputs(
    alloc: Global,
    scale: Scale,
    lists: &MeshLists,
    lines: LogReader,
    proofs: ProofReader,
) -> Result<Inputs, NoMemory>
    requires good { AreGood scale lists.now }
    requires few { length lines < 2 ^ 31 }
    requires order { AreProofs proofs }
    ensures { let texts = Ok (texts_of lists.now lines) in
        IfOk result (GivesInput scale (read_with_proof texts (Ok proofs))) }
{
    match test_mesh(alloc, scale, lists, lines)? {
        PreparedLog::No(why) => Ok(Inputs::No(why)),
        PreparedLog::Yes(mesh, lines) => Ok(Inputs::Yes(mesh, lines, proofs)),
    }
}

// The text of a proof, read behind lists and a log, and the mesh is tested.
fn read_proof_of(
    alloc: Global,
    scale: Scale,
    lists: MeshLists,
    lines: LogReader,
    proof: Vec<u8>,
) -> Result<Inputs, NoMemory>
    requires good { AreGood scale lists }
    requires few { length lines < 2 ^ 31 }
    requires proof_length { length proof.items ≤ TEXT_MAX }
    ensures { let texts = Ok (texts_of lists lines) in
        IfOk result (GivesInput scale (read_with_proof texts (proofs_of proof.items))) }
{
    match ProofReader::of(alloc, proof) {
        Ok(proofs) => test_inputs(alloc, scale, &lists, lines, proofs),
        Err(ReadFault::NoMemory) => Err(NoMemory),
        Err(ReadFault::Text(fault)) => Ok(Inputs::No(LogRefusal::Proof(fault))),
    }
}

// Reads the three texts and tests the mesh.
fn read_all(
    alloc: Global,
    scale: Scale,
    decimals: u8,
    mesh: Vec<u8>,
    log: Vec<u8>,
    proof: Vec<u8>,
) -> Result<Inputs, NoMemory>
    requires few { decimals ≤ DECIMALS_MAX }
    requires mesh_length { length mesh.items ≤ TEXT_MAX }
    requires log_length { length log.items ≤ TEXT_MAX }
    requires proof_length { length proof.items ≤ TEXT_MAX }
    ensures { let texts = read_of_lists scale (lists_of decimals mesh.items) log.items in
        IfOk result (GivesInput scale (read_with_proof texts (proofs_of proof.items))) }
{
    match read_texts(alloc, scale, decimals, mesh, log)? {
        Texts::No(why) => Ok(Inputs::No(why)),
        Texts::Yes(lists, lines) => read_proof_of(alloc, scale, lists, lines, proof),
    }
}

// Fetches and reads a mesh file, the file of a log and the file of a proof, and tests the mesh for an edge and a face that meet and share
// no vertex. The files are fetched in this order before a text is read. Nothing is written or stored.
pub(crate) fn prepare_proof<O: Outside>(
    alloc: Global,
    given: ProofFiles<'_>,
    outside: &mut O,
) -> Result<Inputs, Stop>
    requires few { given.files.decimals ≤ DECIMALS_MAX }
    ensures prepares { let held = (O.around outside.old).world.holds.files in
        IfOk result (PreparesProof held (proof_names given.entry)) }
    ensures looks { OnlyLooks (O.around outside.old) (O.around outside.new) result }
{
    let (mesh, log) = match fetch_log(alloc, given.files, outside)? {
        FetchedLog::No(why) => return Ok(Inputs::No(why)),
        FetchedLog::Yes(mesh, log) => (mesh, log),
    };
    let proof = match fetch_text(alloc, given.files.scale, outside, given.proof)? {
        Fetched::Bytes(bytes) => bytes,
        Fetched::Absent => {
            return Ok(Inputs::No(LogRefusal::Input(Refusal::Missing {
                file: FileWord::Proof,
            })));
        }
        Fetched::TooLong(seen) => {
            return Ok(Inputs::No(LogRefusal::Input(Refusal::Long {
                file: FileWord::Proof,
                seen,
            })));
        }
    };
    Ok(read_all(
        alloc,
        given.files.scale,
        given.files.decimals,
        mesh,
        log,
        proof,
    )?)
}
