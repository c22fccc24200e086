//! What the words of a command line are answered with.
ghost use Rattle.std.specs.Prelude.{◌≡◌, true, false, List, map, string_bytes, Ok, None, IfOk, IfSome};
ghost use Rattle.mesh_field.specs.Stored.{IsWellKept};
ghost use Rattle.mesh_sizing.specs.Sizes.{IsWellKept as SizesWell};
ghost use Rattle.track_engine.specs.Answered.{known};
ghost use Rattle.track_engine.specs.World.{world};
ghost use Rattle.topo.specs.Asked.{is_help, is_version, is_command_help};
ghost use Rattle.track_run.specs.Headline.{RunsFor};
ghost use Rattle.topo.specs.Texts.{usage, version_line};
ghost use Rattle.topo.specs.Answered.{Tells, HelpsCommand};

use crate::help::command_help;
use grid_base::{Point, Shift};
use line_text::is_word;
use mesh_field::Fields;
use mesh_sizing::{Band, Sizing};
use outside_io::{Desk, Sink, put_all};
use std::alloc::{AllocError, Global};
use track_run::{Outcome, run};

/// How the program is called.
pub(crate) const USAGE: &str = "\
usage: topo track MESH STEPS PREFIX [--large] [--decimals N] [--card FILE]
       topo convert FROM TO [--large] [--decimals N]
       topo check MESH [--large] [--decimals N]
       topo measure MESH LOG [--large] [--decimals N] [--card FILE]
       topo prove MESH LOG [--large] [--decimals N] [--card FILE]
       topo verify MESH LOG PROOF [--large] [--decimals N] [--card FILE]
       topo replay MESH LOG PREFIX [--large] [--decimals N] [--only K] [--card FILE]
       topo try N KEY
       topo track --help | convert --help | check --help | measure --help | prove --help | verify --help |
            replay --help | try --help
       topo --help | --version

Reads the Wavefront OBJ mesh MESH and the text of steps STEPS, moves the closed triangle surface by
the steps and edits it, writes the log to standard output, and stores the meshes as PREFIX-000000.obj,
PREFIX-000001.obj and so on. `convert` stores the mesh FROM under TO, each in the format of its ending:
.obj, .off (OFF) or .ply (ASCII PLY). `check` tells all that is wrong with the mesh MESH of such a format.
`measure` takes the lines of the log LOG, which began with the mesh MESH, one after another, and tells what
they did to volume and shape. `prove` takes them so and writes a proof that nothing meets on the way, a
certificate for each motion of the log, and `verify` checks such a proof PROOF, whoever wrote it. `replay`
takes them so and stores the meshes that they save, as `track` did. `try` makes a job of N * N * N cubes by
KEY, runs it, and writes a summary of its log (N from 1 to 12, KEY from 0 to 4294967295); it reads and
stores no file.

--large         files may have up to 2147483647 bytes, and meshes up to 4194304 vertices and 8388608 faces
--decimals N    a unit of the grid is 10 to the power -N (N from 0 to 6; 0 if left out)
--only K        of the meshes of the log, mesh K alone is stored (K from 0 to 4294967295)
--card FILE     `track` stores in FILE of which mesh, steps and decimals its log is, and the others take the log
                with no other mesh and decimals

Exit status:
   0  done
   1  no memory
   2  the words are of no listed form
   3  a file could not be read or stored
   4  standard output could not be written
   5  a file is too long
   6  a line of the mesh file is outside its grammar
   7  the mesh is not of good shape
   8  an edge of the mesh meets a face that shares no vertex with it
   9  a line of the step file is outside its grammar
  10  a directive is refused
  11  a file is missing
  12  a line of the log is outside its grammar
  13  a line of the log does not fit the lines before it
  14  a line of the proof is outside its grammar
  15  a motion of the log is not proved
  16  the card is none, or is that of another job
";

/// The line of the version.
pub(crate) const VERSION_LINE: &str = "topo 0.1.0\n";

// Whether the words ask for help alone.
fn is_help(words: &[String]) -> bool
    ensures { result ≡ is_help (map (λ word. string_bytes word) words.now) }
{
    words.len() == 1
        && (is_word(words[0].as_bytes(), b"--help") || is_word(words[0].as_bytes(), b"-h"))
}

// Whether the words ask for the version alone.
fn is_version(words: &[String]) -> bool
    ensures { result ≡ is_version (map (λ word. string_bytes word) words.now) }
{
    words.len() == 1 && is_word(words[0].as_bytes(), b"--version")
}

// The help of a command, where the words ask for that alone.
fn asked_help(alloc: Global, words: &[String]) -> Result<Option<String>, AllocError>
    ensures asked { let texts = map (λ word. string_bytes word) words.now in
        IfOk result (λ help. IfSome help (λ text. is_command_help texts ≡ true)) }
    ensures other { let texts = map (λ word. string_bytes word) words.now in
        result ≡ Ok None → is_command_help texts ≡ false }
{
    if words.len() == 2
        && (is_word(words[1].as_bytes(), b"--help") || is_word(words[1].as_bytes(), b"-h"))
    {
        command_help(alloc, words[0].as_str())
    } else {
        Ok(None)
    }
}

// Writes a text, and answers the outcome: that of a run that is done, or of one whose sink failed.
fn tell<D: Desk, K: Sink>(text: &str, desk: &D, out: &mut K) -> Outcome
    ensures { Tells text.now result
        (world D.files D.faults K.written K.faults desk.now out.old)
        (world D.files D.faults K.written K.faults desk.now out.new) }
{
    match put_all(out, text.as_bytes()) {
        Ok(()) => Outcome::Done,
        Err(_) => Outcome::SinkFault,
    }
}

// Writes how the program is called.
fn tell_usage<D: Desk, K: Sink>(desk: &D, out: &mut K) -> Outcome
    ensures { Tells usage result
        (world D.files D.faults K.written K.faults desk.now out.old)
        (world D.files D.faults K.written K.faults desk.now out.new) }
{
    tell(USAGE, desk, out)
}

// Writes the line of the version.
fn tell_version<D: Desk, K: Sink>(desk: &D, out: &mut K) -> Outcome
    ensures { Tells version_line result
        (world D.files D.faults K.written K.faults desk.now out.old)
        (world D.files D.faults K.written K.faults desk.now out.new) }
{
    tell(VERSION_LINE, desk, out)
}

/// Answers the words that follow the program's name, and gives the outcome. `--help` or `-h` alone writes how the program is called,
/// `--version` alone the line of the version, the name of a command and `--help` or `-h` the help of the command, or NoMemory where
/// there is none for it, and all other words are a run's.
pub(crate) fn answer<D: Desk, K: Sink, F: Fn(u8, Point) -> Shift, G: Fn(Point) -> Band>(
    alloc: Global,
    words: &[String],
    desk: &mut D,
    out: &mut K,
    fields: &Fields<F>,
    sizing: &Sizing<G>,
) -> Outcome
    requires fields { IsWellKept F.Fn fields.now }
    requires sizing { SizesWell G.Fn sizing.now }
    ensures help { is_help (map (λ word. string_bytes word) words.now) ≡ true →
        Tells usage result
        (world D.files D.faults K.written K.faults desk.old out.old)
        (world D.files D.faults K.written K.faults desk.new out.new) }
    ensures version { is_version (map (λ word. string_bytes word) words.now) ≡ true →
        Tells version_line result
        (world D.files D.faults K.written K.faults desk.old out.old)
        (world D.files D.faults K.written K.faults desk.new out.new) }
    ensures helps { is_command_help (map (λ word. string_bytes word) words.now) ≡ true →
        HelpsCommand result
        (world D.files D.faults K.written K.faults desk.old out.old)
        (world D.files D.faults K.written K.faults desk.new out.new) }
    ensures runs { let texts = map (λ word. string_bytes word) words.now in
        let before = world D.files D.faults K.written K.faults desk.old out.old in
        let after = world D.files D.faults K.written K.faults desk.new out.new in
        is_help texts ≡ false → is_version texts ≡ false → is_command_help texts ≡ false
        → RunsFor (known F.Fn fields.now G.Fn sizing.now) texts result before after }
{
    if is_help(words) {
        return tell_usage(desk, out);
    }
    if is_version(words) {
        return tell_version(desk, out);
    }
    match asked_help(alloc, words) {
        Ok(Some(text)) => tell(text.as_str(), desk, out),
        Ok(None) => run(alloc, words, desk, out, fields, sizing),
        Err(_) => Outcome::NoMemory,
    }
}
