ghost use Rattle.std.specs.Prelude.{◌≡◌, ◌≤◌, option_map, IfOk, IfSome};
ghost use Rattle.clap.specs.Words.{found_of, first_value};
ghost use Rattle.grid_base.specs.declared.TheConstants.{DECIMALS_MAX};
ghost use Rattle.track_input.specs.Words.{is_decimals, decimals_in, told_in, number_in, options_in};
ghost use Rattle.track_input.specs.Taken.{digit_words, behind, options_behind};
ghost use Rattle.track_input.specs.Commands.{scale_of, track_read, convert_read, try_read, log_read, measure_read, prove_read, verify_read, replay_read, check_read, track_app, convert_app, try_app, measure_app, prove_app, verify_app, replay_app, check_app};
ghost use Rattle.track_input.specs.Reads.{ReadsWords, ReadsWordsBy, ReadsWordsExactly};
ghost use Rattle.track_input.specs.Named.{named_by, log_names, IsInLimits};

use crate::arguments::{
    check_command, convert_command, found_in, log_command, replay_command, track_command,
    try_command, verify_command,
};
use crate::mesh_file::{MeshFile, is_file_word, mesh_file};
use clap::ArgMatches;
use grid_base::{DECIMALS_MAX, NoMemory};
use line_text::spelled_number;
use mesh_base::Scale;
use std::alloc::Global;

/// The names of a mesh file and of the file of a log that begins with that mesh, how large both may be, and the decimals of the mesh's
/// points.
#[derive(Clone, Copy)]
pub struct LogFiles<'a> {
    pub mesh: &'a str,
    pub log: &'a str,
    pub scale: Scale,
    pub decimals: u8,
}

/// The names of a mesh file and of the file of a log that begins with that mesh, with what is told of them, and the name of the file of a
/// proof of the log's motions.
#[derive(Clone, Copy)]
pub struct ProofFiles<'a> {
    pub files: LogFiles<'a>,
    pub proof: &'a str,
}

/// The names of a mesh file and of the file of a log that begins with that mesh, with what is told of them, the prefix under which the
/// meshes of the log are stored, and the number of the one that is, where it is one alone.
#[derive(Clone, Copy)]
pub struct ReplayFiles<'a> {
    pub files: LogFiles<'a>,
    pub prefix: &'a str,
    pub only: Option<u32>,
}

/// What the words of a command line ask for.
#[derive(Clone, Copy)]
pub enum Command<'a> {
    /// A mesh is tracked: the names of its file and of the step file, the prefix under which meshes are stored, how large files and meshes
    /// may be, and the decimals of their points.
    Track {
        mesh: &'a str,
        steps: &'a str,
        prefix: &'a str,
        scale: Scale,
        decimals: u8,
    },
    /// The mesh of a file is stored in another; how large both may be, and the decimals of its points.
    Convert {
        from: MeshFile<'a>,
        to: MeshFile<'a>,
        scale: Scale,
        decimals: u8,
    },
    /// A job of so many cubes along an edge is made by a key and run, and its log is summed up.
    Try {
        cubes: u8,
        key: u32,
    },
    /// It is told what a log did to volume and shape.
    Measure(LogFiles<'a>),
    /// A certificate is made for each motion of a log.
    Prove(LogFiles<'a>),
    /// A proof is checked, that has a certificate for each motion of a log.
    Verify(ProofFiles<'a>),
    /// The meshes of a log are made again and stored.
    Replay(ReplayFiles<'a>),
    /// It is told what is wrong with the mesh of a file; how large it may be, and the decimals of its points.
    Check {
        mesh: MeshFile<'a>,
        scale: Scale,
        decimals: u8,
    },
}

/// The greatest number of cubes along an edge of a job that is made.
pub const CUBES_MAX: u8 = 12;

fn is_decimals(word: &[u8]) -> bool
    ensures { result ≡ is_decimals word.now }
{
    word.len() == 1 && (b'0' <= word[0] && word[0] <= b'0' + DECIMALS_MAX)
}

// The decimals that N tells, or 0 where there is none.
fn decimals_of(digit: Option<&str>) -> Option<u8>
    ensures told { result ≡ decimals_in (digit_words (option_map (λ s. s.now) digit.entry)) }
    ensures few { IfSome result (λ decimals. decimals ≤ DECIMALS_MAX) }
{
    match digit {
        None => Some(0),
        Some(digit) => {
            let digit = digit.as_bytes();
            if is_decimals(digit) {
                Some(digit[0] - b'0')
            } else {
                None
            }
        }
    }
}

// The scale that the value of `--large` tells.
fn scale_of(flag: Option<&str>) -> Scale
    ensures { result ≡ scale_of (option_map (λ s. s.now) flag.entry) }
{
    match flag {
        Some("true") => Scale::Large,
        _ => Scale::Standard,
    }
}

// The scale that `--large` tells, and the decimals that N tells, or 0 where there is none.
fn told_of(flag: Option<&str>, digit: Option<&str>) -> Option<(Scale, u8)>
    ensures told { result ≡ told_in (behind (scale_of (option_map (λ s. s.now) flag.entry))
        (option_map (λ s. s.now) digit.entry)) }
    ensures few { IfSome result (λ told. told.1 ≤ DECIMALS_MAX) }
{
    let decimals = decimals_of(digit)?;
    Some((scale_of(flag), decimals))
}

// The command of the words that were found after `track`.
fn track_read<'a>(found: &ArgMatches<'a>) -> Option<Command<'a>>
    ensures command { option_map named_by result ≡ track_read (first_value (found_of found.now)) }
    ensures few { IfSome result IsInLimits }
{
    let mesh = found.get_str("mesh")?;
    let steps = found.get_str("steps")?;
    let prefix = found.get_str("prefix")?;
    if !(is_file_word(mesh) && (is_file_word(steps) && is_file_word(prefix))) {
        return None;
    }
    let told = told_of(found.get_str("large"), found.get_str("decimals"))?;
    Some(Command::Track {
        mesh,
        steps,
        prefix,
        scale: told.0,
        decimals: told.1,
    })
}

// The command of the words that were found after `convert`.
fn convert_read<'a>(found: &ArgMatches<'a>) -> Option<Command<'a>>
    ensures command { option_map named_by result ≡ convert_read (first_value (found_of found.now)) }
    ensures few { IfSome result IsInLimits }
{
    let from = mesh_file(found.get_str("from")?)?;
    let to = mesh_file(found.get_str("to")?)?;
    let told = told_of(found.get_str("large"), found.get_str("decimals"))?;
    Some(Command::Convert {
        from,
        to,
        scale: told.0,
        decimals: told.1,
    })
}

// The number from `low` to `high` that digits write, with no sign and no needless zero in front.
fn number_in(low: u32, high: u32, word: &str) -> Option<u32>
    ensures told { result ≡ number_in low high word.now }
    ensures above { IfSome result (λ n. low ≤ n) }
    ensures below { IfSome result (λ n. n ≤ high) }
{
    let n = spelled_number(word.as_bytes())?;
    if u128::from(low) <= n && n <= u128::from(high) {
        Some(n as u32)
    } else {
        None
    }
}

// The command of the words that were found after `try`.
fn try_read(found: &ArgMatches<'_>) -> Option<Command<'static>>
    ensures command { option_map named_by result ≡ try_read (first_value (found_of found.now)) }
    ensures few { IfSome result IsInLimits }
{
    let cubes = number_in(1, CUBES_MAX as u32, found.get_str("cubes")?)?;
    let key = number_in(0, u32::MAX, found.get_str("key")?)?;
    Some(Command::Try {
        cubes: cubes as u8,
        key,
    })
}

// The mesh and the log of the words that were found after the name of a command.
fn log_read<'a>(found: &ArgMatches<'a>) -> Option<LogFiles<'a>>
    ensures names { option_map log_names result ≡ log_read (first_value (found_of found.now)) }
    ensures few { IfSome result (λ files. files.decimals ≤ DECIMALS_MAX) }
{
    let mesh = found.get_str("mesh")?;
    let log = found.get_str("log")?;
    if !(is_file_word(mesh) && is_file_word(log)) {
        return None;
    }
    let told = told_of(found.get_str("large"), found.get_str("decimals"))?;
    Some(LogFiles {
        mesh,
        log,
        scale: told.0,
        decimals: told.1,
    })
}

// The command of the words that were found after `measure`.
fn measure_read<'a>(found: &ArgMatches<'a>) -> Option<Command<'a>>
    ensures command { option_map named_by result ≡ measure_read (first_value (found_of found.now)) }
    ensures few { IfSome result IsInLimits }
{
    let files = log_read(found)?;
    Some(Command::Measure(files))
}

// The command of the words that were found after `prove`.
fn prove_read<'a>(found: &ArgMatches<'a>) -> Option<Command<'a>>
    ensures command { option_map named_by result ≡ prove_read (first_value (found_of found.now)) }
    ensures few { IfSome result IsInLimits }
{
    let files = log_read(found)?;
    Some(Command::Prove(files))
}

// The command of the words that were found after `verify`.
fn verify_read<'a>(found: &ArgMatches<'a>) -> Option<Command<'a>>
    ensures command { option_map named_by result ≡ verify_read (first_value (found_of found.now)) }
    ensures few { IfSome result IsInLimits }
{
    let mesh = found.get_str("mesh")?;
    let log = found.get_str("log")?;
    let proof = found.get_str("proof")?;
    if !(is_file_word(mesh) && (is_file_word(log) && is_file_word(proof))) {
        return None;
    }
    let told = told_of(found.get_str("large"), found.get_str("decimals"))?;
    let files = LogFiles {
        mesh,
        log,
        scale: told.0,
        decimals: told.1,
    };
    Some(Command::Verify(ProofFiles { files, proof }))
}

// The scale that `--large` tells, the decimals that N tells, or 0 where there is none, and the number that K tells, or none.
fn options_of(
    flag: Option<&str>,
    digit: Option<&str>,
    number: Option<&str>,
) -> Option<(Scale, u8, Option<u32>)>
    ensures told { result ≡ options_in (options_behind (scale_of (option_map (λ s. s.now) flag.entry))
        (option_map (λ s. s.now) digit.entry) (option_map (λ s. s.now) number.entry)) }
    ensures few { IfSome result (λ told. told.1 ≤ DECIMALS_MAX) }
{
    let decimals = decimals_of(digit)?;
    let scale = scale_of(flag);
    match number {
        None => Some((scale, decimals, None)),
        Some(word) => {
            let only = number_in(0, u32::MAX, word)?;
            Some((scale, decimals, Some(only)))
        }
    }
}

// The command of the words that were found after `replay`.
fn replay_read<'a>(found: &ArgMatches<'a>) -> Option<Command<'a>>
    ensures command { option_map named_by result ≡ replay_read (first_value (found_of found.now)) }
    ensures few { IfSome result IsInLimits }
{
    let mesh = found.get_str("mesh")?;
    let log = found.get_str("log")?;
    let prefix = found.get_str("prefix")?;
    if !(is_file_word(mesh) && (is_file_word(log) && is_file_word(prefix))) {
        return None;
    }
    let told = options_of(
        found.get_str("large"),
        found.get_str("decimals"),
        found.get_str("only"),
    )?;
    let files = LogFiles {
        mesh,
        log,
        scale: told.0,
        decimals: told.1,
    };
    Some(Command::Replay(ReplayFiles {
        files,
        prefix,
        only: told.2,
    }))
}

// The command of the words that were found after `check`.
fn check_read<'a>(found: &ArgMatches<'a>) -> Option<Command<'a>>
    ensures command { option_map named_by result ≡ check_read (first_value (found_of found.now)) }
    ensures few { IfSome result IsInLimits }
{
    let mesh = mesh_file(found.get_str("mesh")?)?;
    let told = told_of(found.get_str("large"), found.get_str("decimals"))?;
    Some(Command::Check {
        mesh,
        scale: told.0,
        decimals: told.1,
    })
}

// The command of words whose first is `track`.
fn track_in<'a>(alloc: Global, words: &'a [String]) -> Result<Option<Command<'a>>, NoMemory>
    ensures read { IfOk result (ReadsWordsBy track_read track_app words.entry.now) }
    ensures few { IfOk result (λ found. IfSome found IsInLimits) }
{
    match found_in(track_command(alloc)?, words)? {
        Some(found) => Ok(track_read(&found)),
        None => Ok(None),
    }
}

// The command of words whose first is `convert`.
fn convert_in<'a>(alloc: Global, words: &'a [String]) -> Result<Option<Command<'a>>, NoMemory>
    ensures read { IfOk result (ReadsWordsBy convert_read convert_app words.entry.now) }
    ensures few { IfOk result (λ found. IfSome found IsInLimits) }
{
    match found_in(convert_command(alloc)?, words)? {
        Some(found) => Ok(convert_read(&found)),
        None => Ok(None),
    }
}

// The command of words whose first is `try`.
fn try_in<'a>(alloc: Global, words: &'a [String]) -> Result<Option<Command<'a>>, NoMemory>
    ensures read { IfOk result (ReadsWordsBy try_read try_app words.entry.now) }
    ensures few { IfOk result (λ found. IfSome found IsInLimits) }
{
    match found_in(try_command(alloc)?, words)? {
        Some(found) => Ok(try_read(&found)),
        None => Ok(None),
    }
}

// The command of words whose first is `measure`.
fn measure_in<'a>(alloc: Global, words: &'a [String]) -> Result<Option<Command<'a>>, NoMemory>
    ensures read { IfOk result (ReadsWordsBy measure_read measure_app words.entry.now) }
    ensures few { IfOk result (λ found. IfSome found IsInLimits) }
{
    match found_in(log_command(alloc, "measure")?, words)? {
        Some(found) => Ok(measure_read(&found)),
        None => Ok(None),
    }
}

// The command of words whose first is `prove`.
fn prove_in<'a>(alloc: Global, words: &'a [String]) -> Result<Option<Command<'a>>, NoMemory>
    ensures read { IfOk result (ReadsWordsBy prove_read prove_app words.entry.now) }
    ensures few { IfOk result (λ found. IfSome found IsInLimits) }
{
    match found_in(log_command(alloc, "prove")?, words)? {
        Some(found) => Ok(prove_read(&found)),
        None => Ok(None),
    }
}

// The command of words whose first is `verify`.
fn verify_in<'a>(alloc: Global, words: &'a [String]) -> Result<Option<Command<'a>>, NoMemory>
    ensures read { IfOk result (ReadsWordsBy verify_read verify_app words.entry.now) }
    ensures few { IfOk result (λ found. IfSome found IsInLimits) }
{
    match found_in(verify_command(alloc)?, words)? {
        Some(found) => Ok(verify_read(&found)),
        None => Ok(None),
    }
}

// The command of words whose first is `replay`.
fn replay_in<'a>(alloc: Global, words: &'a [String]) -> Result<Option<Command<'a>>, NoMemory>
    ensures read { IfOk result (ReadsWordsBy replay_read replay_app words.entry.now) }
    ensures few { IfOk result (λ found. IfSome found IsInLimits) }
{
    match found_in(replay_command(alloc)?, words)? {
        Some(found) => Ok(replay_read(&found)),
        None => Ok(None),
    }
}

// The command of words whose first is `check`.
fn check_in<'a>(alloc: Global, words: &'a [String]) -> Result<Option<Command<'a>>, NoMemory>
    ensures read { IfOk result (ReadsWordsBy check_read check_app words.entry.now) }
    ensures few { IfOk result (λ found. IfSome found IsInLimits) }
{
    match found_in(check_command(alloc)?, words)? {
        Some(found) => Ok(check_read(&found)),
        None => Ok(None),
    }
}

/// The command that the words are read as: `track MESH STEPS PREFIX`, `convert FROM TO`, `measure MESH LOG`, `prove MESH LOG`,
/// `verify MESH LOG PROOF`, `replay MESH LOG PREFIX` or `check MESH`, or one of these and `--large`, which is of large files and meshes,
/// `--decimals N` with one digit N from 0 to 6, or both in this order, `replay` too with `--only K` after that, or `try N KEY`. A file
/// word is not empty and has no dash in front, and that of `check` and both of `convert` end in `.obj`, `.off` or `.ply`. N of `try` is 1
/// to 12, and K and KEY are 0 to 4,294,967,295, digits with no needless zero in front. Words of no such form are taken as one of the same
/// first word whose words are among them (options may stand before the files and in any order, as `--decimals=N` and `--only=K` too), or
/// they are no command. NoMemory at any words.
pub fn command_of<'a>(alloc: Global, words: &'a [String]) -> Result<Option<Command<'a>>, NoMemory>
    ensures read { IfOk result (ReadsWords words.entry.now) }
    ensures exact { IfOk result (ReadsWordsExactly words.entry.now) }
    ensures few { IfOk result (λ found. IfSome found IsInLimits) }
{
    let Some(first) = words.first() else {
        return Ok(None);
    };
    match first.as_str() {
        "track" => track_in(alloc, words),
        "convert" => convert_in(alloc, words),
        "try" => try_in(alloc, words),
        "measure" => measure_in(alloc, words),
        "prove" => prove_in(alloc, words),
        "verify" => verify_in(alloc, words),
        "replay" => replay_in(alloc, words),
        "check" => check_in(alloc, words),
        _ => Ok(None),
    }
}
