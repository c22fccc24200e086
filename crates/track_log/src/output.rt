//! Lines that a command tells.
ghost use Rattle.std.specs.Prelude.{◌≡◌, ◌<◌, ◌∷◌, [], codes, decimal, length, Some, IfOk, OnErr};
ghost use Rattle.line_text.specs.WrittenLines.{Appends, line_of_words};
ghost use Rattle.log_text.specs.Lines.{pair_words};
ghost use Rattle.track_log.specs.Refused.{refused_text, motion_text, verdict_words};
ghost use Rattle.track_log.specs.Telling.{Tells};

use crate::refusal::LogRefusal;
use grid_base::NoMemory;
use line_text::{Field, TextFault, put_line};
use log_text::{LogLine, print_line, why_word};
use mesh_base::PairName;
use motion_proof::Verdict;
use outside_io::{Outside, Stop};
use std::alloc::Global;

// Appends the line that refuses a line of a log for its spelling.
fn print_log(fault: TextFault, into: &mut Vec<u8>) -> Result<(), NoMemory>
    ensures ok { Appends result into.old into.new (refused_text (LogRefusal.Log fault)) }
{
    put_line(
        &[
            Field::Text(b"refused"),
            Field::Text(b"log"),
            Field::Number(u64::from(fault.line)),
            Field::Text(why_word(fault.why)),
        ],
        into,
    )
}

// Appends the line that refuses a line of a proof for its spelling.
fn print_proof_fault(fault: TextFault, into: &mut Vec<u8>) -> Result<(), NoMemory>
    ensures ok { Appends result into.old into.new (refused_text (LogRefusal.Proof fault)) }
{
    put_line(
        &[
            Field::Text(b"refused"),
            Field::Text(b"proof"),
            Field::Number(u64::from(fault.line)),
            Field::Text(why_word(fault.why)),
        ],
        into,
    )
}

// Appends the line that refuses a line of a log that does not fit.
fn print_replay(line: u32, into: &mut Vec<u8>) -> Result<(), NoMemory>
    ensures ok { Appends result into.old into.new (refused_text (LogRefusal.Replay line)) }
{
    put_line(
        &[
            Field::Text(b"refused"),
            Field::Text(b"replay"),
            Field::Number(u64::from(line)),
        ],
        into,
    )
}

// Appends the line that refuses a motion, and the word that says why.
fn print_word(line: u32, word: &[u8], into: &mut Vec<u8>) -> Result<(), NoMemory>
    ensures ok { Appends result into.old into.new (motion_text line (word.now ∷ [])) }
{
    put_line(
        &[
            Field::Text(b"refused"),
            Field::Text(b"motion"),
            Field::Number(u64::from(line)),
            Field::Text(word),
        ],
        into,
    )
}

// Appends the line that refuses a motion, the word that says why, and the pair of which it is said.
fn print_pair(line: u32, word: &[u8], pair: PairName, into: &mut Vec<u8>) -> Result<(), NoMemory>
    ensures ok { Appends result into.old into.new (motion_text line (word.now ∷ pair_words pair)) }
{
    put_line(
        &[
            Field::Text(b"refused"),
            Field::Text(b"motion"),
            Field::Number(u64::from(line)),
            Field::Text(word),
            Field::Number(u64::from(pair.a.0)),
            Field::Number(u64::from(pair.b.0)),
            Field::Number(u64::from(pair.face.0)),
        ],
        into,
    )
}

// Appends the line that refuses a motion.
fn print_motion(line: u32, verdict: Verdict, into: &mut Vec<u8>) -> Result<(), NoMemory>
    ensures ok { Appends result into.old into.new (motion_text line (verdict_words verdict)) }
{
    match verdict {
        Verdict::Accepted => print_word(line, b"accepted", into),
        Verdict::NoMotion => print_word(line, b"nomotion", into),
        Verdict::Stranger(pair) => print_pair(line, b"stranger", pair, into),
        Verdict::Invalid(pair) => print_pair(line, b"invalid", pair, into),
        Verdict::Missing(pair) => print_pair(line, b"missing", pair, into),
    }
}

// Appends the line of a refusal.
fn print_refusal(why: &LogRefusal, into: &mut Vec<u8>) -> Result<(), NoMemory>
    ensures ok { Appends result into.old into.new (refused_text why.now) }
{
    match why {
        LogRefusal::Input(why) => print_line(&LogLine::Refused(*why), into),
        LogRefusal::Log(fault) => print_log(*fault, into),
        LogRefusal::Proof(fault) => print_proof_fault(*fault, into),
        LogRefusal::Replay { line } => print_replay(*line, into),
        LogRefusal::Motion { line, verdict } => print_motion(*line, *verdict, into),
    }
}

/// Writes a text, which is not empty. A fault leaves the first bytes of it, perhaps none, and not all.
pub fn put_text<O: Outside>(outside: &mut O, text: &[u8]) -> Result<(), Stop>
    requires some { 0 < length text.now }
    ensures { Tells text.now (O.around outside.old) (O.around outside.new) result }
{
    outside.put(text)
}

/// Writes the line of a refusal, and answers the refusal. A stop leaves the first bytes of the line, perhaps none, and not all.
pub fn refuse<O: Outside>(
    alloc: Global,
    why: &LogRefusal,
    outside: &mut O,
) -> Result<Option<LogRefusal>, Stop>
    ensures tells { Tells (refused_text why.now) (O.around outside.old) (O.around outside.new) result }
    ensures ending { IfOk result (λ ending. ending ≡ Some why.now) }
{
    let mut line = Vec::new(alloc);
    print_refusal(why, &mut line)?;
    put_text(outside, &line)?;
    Ok(Some(*why))
}
