//! The texts of help: how each command is called.
ghost use Rattle.std.specs.Prelude.{◌≡◌, true, false, Ok, None, IfOk, IfSome};
ghost use Rattle.topo.specs.Asked.{is_command};

use clap::{Arg, ArgAction, Command};
use std::alloc::{AllocError, Global};

static DIGITS: [&str; 7] = ["0", "1", "2", "3", "4", "5", "6"];

const STEP_TEXT: &str = "\
The text of steps, a directive a line; V is the id of a vertex, and # begins a comment:
  shift V DX DY DZ, shift all DX DY DZ   add to the shift that is asked, in units of the grid
  drive NAME                             add what the field NAME gives where each vertex stands: swirl, swell or
                                         shrink, a 64th about the z axis, from the origin or to it
  step                                   move each vertex as is asked, as far as no surfaces meet
  save                                   write the mesh
  solid V                                nothing moves vertex V from here on
  split L, collapse L                    split each edge longer than L, collapse each shorter one
  flip                                   flip each edge that is longer than the one across it
  zip D                                  join edges whose midpoints are at most D apart by tunnels
  pinch                                  part the surface where it hangs together at a vertex
  fit                                    split each edge longer than 60 + D/16, collapse each shorter than
                                         20 + D/64, where D is the greatest size of a coordinate at its middle
  group, close                           what stands between is kept or taken back as a whole
  set depth D, set halvings H, set passes P, set zones Z   how steps are tested and shortened

docs/FORMATS.md has all texts: meshes, steps and the log. `topo --help` lists the exit statuses.";

const FORMATS: &str = "\
The ending of each name picks its format: .obj (Wavefront OBJ), .off (OFF) or .ply (ASCII PLY).

docs/FORMATS.md has all texts. `topo --help` lists the exit statuses.";

const SUMMARY: &str = "\
N is 1 to 12 and KEY 0 to 4294967295, both in digits with no needless zero in front.

The job has N * N * N cubes of side 40, 100 apart. In each of three steps each cube moves as a whole by 1 to 9
along each axis, as KEY picks; then edges longer than 50 are split, and the mesh is saved. Nothing is read or
stored. What is written, of the job's whole log:
  try N KEY         the words
  cubes C           how many cubes there are
  steps S whole W   how many steps there are, and how many of them are taken unaltered
  splits X          how many edges are split
  mesh V F          how many vertices and faces the mesh has at the end
  corner X Y Z      where vertex 1 then stands
  lines L           how many lines the log has

docs/FORMATS.md has all texts. `topo --help` lists the exit statuses.";

const MEASURES: &str = "\
Each line of the log is taken where it fits the lines before it: a move in a step that is begun, an edit that
comes out as told, a step of which each pair of an edge and a face passes the test to depth 10. What is written:
  measure K volume6 N components C euler X genus G
                    at mesh K of the log: N is six times its signed volume in cubic units of the grid, C how many
                    pieces it is in, X the vertices minus the edges plus the faces, and G how many handles it has
                    in all, or `none` where an edge or a vertex hangs together more than once
  change LINE components C euler X
                    behind line LINE of the log, where C or X are others than before
  end               every line was taken

docs/FORMATS.md has all texts. `topo --help` lists the exit statuses.";

const PROVES: &str = "\
Each line of the log is taken where it fits the lines before it: a move in a step that is begun, an edit that
comes out as told. For each motion that it tells, of a step (`moved`) or of a split, a flip, a collapse or a
pinch, a certificate is written that no edge meets a face that shares no vertex with it on the way. What is
written, where all is proved, is read by `topo verify`:
  topo proof 1
  motion LINE CLAIM   the motion of line LINE of the log; an edge and a face may touch nowhere on the way (along),
                      at its start alone (after, of a pinch) or at its end alone (before, of a collapse)
  pair A B FACE       the edge of the vertices A and B, and a face
  dir X Y Z           what keeps the two apart: a direction in which they are one behind the other
  half                one thing keeps them apart over the first half of the way, and another over the second
  end

docs/FORMATS.md has all texts. `topo --help` lists the exit statuses.";

const VERIFIES: &str = "\
The log is taken line by line, as `topo prove` does, and each certificate of the proof is checked against the
motion of its line, whoever wrote it. What is written:
  verified M        the proof has a certificate for each of the M motions of the log, and each of them proves
                    that nothing meets on the way
  refused motion LINE WHY
                    the first line of the log against whose motion something is found: `nomotion`, where log
                    and proof do not tell of the same motion, or, with a pair, `stranger` (the mesh has no such
                    pair), `invalid` (it is not kept apart), `missing` (it needs an entry and has none)

docs/FORMATS.md has all texts. `topo --help` lists the exit statuses.";

const REPLAYS: &str = "\
Each line of the log is taken where it fits the lines before it, as `topo measure` does, and at each `mesh` line the
mesh is stored, byte for byte as `topo track` stored it where it wrote the log. So a log and the mesh that it began
with are all that has to be kept. What is written:
  replayed COUNT    how many meshes were stored; where two lines tell one number, the later stays
  refused replay LINE
                    the first line of the log that does not fit; the meshes of the lines before it were stored

docs/FORMATS.md has all texts. `topo --help` lists the exit statuses.";

const CHECKS: &str = "\
The ending of the name picks its format: .obj (Wavefront OBJ), .off (OFF) or .ply (ASCII PLY). What is written, of
all that is wrong at most the first million lines:
  shape WHY ..      a fault of shape: more vertices or faces than the limit (vertices COUNT, faces COUNT); a face with a
                    corner that is no vertex (corner FACE CORNER), or with one vertex twice (repeated FACE); a face that
                    a later one equals (doubled FACE LATER); two vertices between which the faces do not run as often
                    one way as the other, so that the surface has a border there (unbalanced A B)
  meets A B FACE    where the shape is good: an edge, of the vertices A and B, and a face that meet and share no vertex
  checked V F faults M
                    how many vertices and faces the mesh has, and how many lines say what is wrong

docs/FORMATS.md has all texts. `topo --help` lists the exit statuses.";

const HELD: &str = "The card of the log: nothing is done with another mesh, log or decimals";

// A word that has to be given.
fn word<'a>(alloc: Global, name: &'a str, help: &'a str) -> Arg<'a> {
    Arg::new(alloc, name)
        .value_name(name)
        .help(help)
        .required(true)
        .action(ArgAction::Set)
}

fn large<'a>(alloc: Global) -> Arg<'a> {
    Arg::new(alloc, "large")
        .long("large")
        .help(
            "The files may be longer than 64 MiB, and the mesh have more than 65536 vertices or 131072 faces",
        )
        .action(ArgAction::SetTrue)
}

fn decimals<'a>(alloc: Global) -> Arg<'a> {
    Arg::new(alloc, "decimals")
        .long("decimals")
        .value_name("N")
        .help("A unit of the grid is 10 to the power -N; 0 if it is left out")
        .value_parser(DIGITS.as_slice())
}

fn card<'a>(alloc: Global, help: &'a str) -> Arg<'a> {
    Arg::new(alloc, "card")
        .long("card")
        .value_name("FILE")
        .help(help)
        .action(ArgAction::Set)
}

fn track<'a>(alloc: Global) -> Result<Command<'a>, AllocError> {
    Command::new(alloc, "track")
        .about("Moves and edits a closed triangle mesh, and keeps it free of self-intersections")
        .after_help(STEP_TEXT)
        .arg(word(alloc, "MESH", "The Wavefront OBJ file of the mesh"))?
        .arg(word(alloc, "STEPS", "The file of the steps"))?
        .arg(word(
            alloc,
            "PREFIX",
            "Meshes are stored as PREFIX-000000.obj and so on",
        ))?
        .arg(large(alloc))?
        .arg(decimals(alloc))?
        .arg(card(
            alloc,
            "Of which mesh, steps and decimals the log is, is stored in it",
        ))
}

fn convert<'a>(alloc: Global) -> Result<Command<'a>, AllocError> {
    Command::new(alloc, "convert")
        .about("Stores a mesh in another format")
        .after_help(FORMATS)
        .arg(word(alloc, "FROM", "The file of the mesh"))?
        .arg(word(alloc, "TO", "The file that it is stored in"))?
        .arg(large(alloc))?
        .arg(decimals(alloc))
}

// A command that takes a mesh and a log.
fn of_log<'a>(
    alloc: Global,
    name: &'a str,
    about: &'a str,
    behind: &'a str,
) -> Result<Command<'a>, AllocError> {
    Command::new(alloc, name)
        .about(about)
        .after_help(behind)
        .arg(word(
            alloc,
            "MESH",
            "The Wavefront OBJ file of the mesh that the log began with",
        ))?
        .arg(word(alloc, "LOG", "The file of the log, as `track` wrote it"))
}

fn measure<'a>(alloc: Global) -> Result<Command<'a>, AllocError> {
    let about = "Tells what a log did to volume and shape";
    of_log(alloc, "measure", about, MEASURES)?
        .arg(large(alloc))?
        .arg(decimals(alloc))?
        .arg(card(alloc, HELD))
}

fn prove<'a>(alloc: Global) -> Result<Command<'a>, AllocError> {
    let about = "Writes a proof that nothing meets in the motions of a log";
    of_log(alloc, "prove", about, PROVES)?
        .arg(large(alloc))?
        .arg(decimals(alloc))?
        .arg(card(alloc, HELD))
}

fn verify<'a>(alloc: Global) -> Result<Command<'a>, AllocError> {
    let about = "Checks a proof that nothing meets in the motions of a log";
    of_log(alloc, "verify", about, VERIFIES)?
        .arg(word(alloc, "PROOF", "The file of the proof"))?
        .arg(large(alloc))?
        .arg(decimals(alloc))?
        .arg(card(alloc, HELD))
}

fn replay<'a>(alloc: Global) -> Result<Command<'a>, AllocError> {
    let about = "Makes the meshes of a log again, and stores them";
    of_log(alloc, "replay", about, REPLAYS)?
        .arg(word(
            alloc,
            "PREFIX",
            "Meshes are stored as PREFIX-000000.obj and so on",
        ))?
        .arg(large(alloc))?
        .arg(decimals(alloc))?
        .arg(
            Arg::new(alloc, "only")
                .long("only")
                .value_name("K")
                .help("Of the meshes of the log, store mesh K alone")
                .action(ArgAction::Set),
        )?
        .arg(card(alloc, HELD))
}

fn check<'a>(alloc: Global) -> Result<Command<'a>, AllocError> {
    Command::new(alloc, "check")
        .about("Tells all that is wrong with a mesh")
        .after_help(CHECKS)
        .arg(word(alloc, "MESH", "The file of the mesh"))?
        .arg(large(alloc))?
        .arg(decimals(alloc))
}

fn try_cubes<'a>(alloc: Global) -> Result<Command<'a>, AllocError> {
    Command::new(alloc, "try")
        .about("Makes a job of cubes by a key, runs it, and sums up its log")
        .after_help(SUMMARY)
        .arg(word(alloc, "N", "How many cubes stand in a row"))?
        .arg(word(alloc, "KEY", "Picks how each cube moves"))
}

// How a command is called, under its name after the program's.
fn rendered<'a>(command: Command<'a>, name: &'a str) -> Result<String, AllocError> {
    let mut command = command.bin_name(name)?;
    command.render_help()
}

fn track_help(alloc: Global) -> Result<String, AllocError> {
    rendered(track(alloc)?, "topo track")
}

fn convert_help(alloc: Global) -> Result<String, AllocError> {
    rendered(convert(alloc)?, "topo convert")
}

fn try_help(alloc: Global) -> Result<String, AllocError> {
    rendered(try_cubes(alloc)?, "topo try")
}

fn measure_help(alloc: Global) -> Result<String, AllocError> {
    rendered(measure(alloc)?, "topo measure")
}

fn prove_help(alloc: Global) -> Result<String, AllocError> {
    rendered(prove(alloc)?, "topo prove")
}

fn verify_help(alloc: Global) -> Result<String, AllocError> {
    rendered(verify(alloc)?, "topo verify")
}

fn replay_help(alloc: Global) -> Result<String, AllocError> {
    rendered(replay(alloc)?, "topo replay")
}

fn check_help(alloc: Global) -> Result<String, AllocError> {
    rendered(check(alloc)?, "topo check")
}

/// How the command is called; None, where there is no such command.
pub(crate) fn command_help(alloc: Global, name: &str) -> Result<Option<String>, AllocError>
    ensures named { IfOk result (λ help. IfSome help (λ text. is_command name.now ≡ true)) }
    ensures other { result ≡ Ok None → is_command name.now ≡ false }
{
    let help = match name {
        "track" => track_help(alloc)?,
        "convert" => convert_help(alloc)?,
        "try" => try_help(alloc)?,
        "measure" => measure_help(alloc)?,
        "prove" => prove_help(alloc)?,
        "verify" => verify_help(alloc)?,
        "replay" => replay_help(alloc)?,
        "check" => check_help(alloc)?,
        _ => return Ok(None),
    };
    Ok(Some(help))
}
