//! The program `topo`. It makes the real desk and sink and answers the words of the command line: it tracks, converts or checks a
//! mesh, measures, proves, verifies or replays a log, tries a job that it makes, or says how to call it. What is to be believed is here
//! alone: that the words are those of the command line, that the fields and the sizing are the shipped ones, that the status is handed
//! out, and that nothing is done where standard output goes to a file of the job.
#![tactic(auto)]

mod band;
mod cards;
mod command_line;
mod explanation;
mod help;
mod shipped;

use band::shipped_band;
use card_files::{Asked, CardDesk, MarkedSink, without_card};
use cards::{asked_of, keep_card, other_job};
use command_line::{USAGE, answer};
use explanation::{Seen, explain};
use mesh_field::{Fields, no_fields};
use mesh_sizing::Sizing;
use outside_io::{Ending, FileDesk, StdSink, Trouble};
use refusal_sentences::plain;
use shipped::{REACH, shipped_names, shipped_shift};
use std::alloc::{AllocError, Global};
use std::io::{ErrorKind, IsTerminal};
use std::process::ExitCode;
use std::rt::Env;
use std::{env, io};
use track_run::Outcome;
use user_files::{
    EndedVertices, LifeLine, LogWatch, Names, SystemDesk, SystemOutput, UserDesk, WatchedSink,
    Watcher, cubes_of, names_of, output_reason_of, tell_cubes, warnings,
};

// The words after the program's name.
fn words(rt: &(impl Env + AllocGlobal)) -> io::Result<Vec<String>> {
    let mut words = Vec::new(rt.alloc());
    for (i, word) in env::args(rt)?.enumerate() {
        if i > 0 {
            words.push(word)?;
        }
    }
    Ok(words)
}

// Which terminal waits for the run.
fn watcher(rt: &HostRuntime) -> Watcher {
    if !rt.stderr().is_terminal() {
        Watcher::Nobody
    } else if rt.stdout().is_terminal() {
        Watcher::Shared
    } else {
        Watcher::Apart
    }
}

// Tells why the job did not end as done, and the status.
fn tell_end(
    alloc: Global,
    rt: &impl Eprint,
    status: u8,
    why: Result<String, AllocError>,
) -> ExitCode {
    if status != 0 {
        if let Ok(why) = why {
            if let Ok(why) = plain(alloc, why.as_str()) {
                let _ = eprintln!(rt; "topo: {why}");
            }
        }
        let _ = eprintln!(rt; "topo: status {status}");
    }
    ExitCode::from(status)
}

// Tells how the program is called where that is wanted, and why the job did not end as done, and gives the status.
fn end(
    alloc: Global,
    rt: &impl Eprint,
    outcome: Outcome,
    why: Result<String, AllocError>,
) -> ExitCode {
    if outcome == Outcome::Usage {
        let _ = eprint!(rt; "{USAGE}");
    }
    tell_end(alloc, rt, outcome.status(), why)
}

// Tells what may be amiss, a line each.
fn warn(alloc: Global, rt: &impl Eprint, warnings: Result<Vec<String>, AllocError>) {
    if let Ok(warnings) = warnings {
        for warning in &warnings {
            if let Ok(warning) = plain(alloc, warning.as_str()) {
                let _ = eprintln!(rt; "topo: warning: {warning}");
            }
        }
    }
}

// What the system refused, at a store or at the text that was to be spared before it.
fn trouble_of<'d>(desk: &'d SystemDesk<'_, '_, '_, HostRuntime>) -> Option<&'d Trouble> {
    match desk.spared.trouble() {
        Some(trouble) => Some(trouble),
        None => desk.files.trouble(),
    }
}

// What a run has left behind: its desk, the vertices that its log ended, how its directives ended, and what standard output refused.
#[derive(Clone, Copy)]
struct Left<'l, 'd, 'e, 'w> {
    desk: &'l SystemDesk<'d, 'e, 'w, HostRuntime>,
    ended: &'l EndedVertices,
    ending: Option<Ending>,
    refused: Option<io::Error>,
}

// What may be amiss in a run that has ended so: nothing where it is not done.
fn amiss(
    rt: &HostRuntime,
    words: &[String],
    names: Option<Names<'_>>,
    outcome: &Outcome,
    left: Left<'_, '_, '_, '_>,
) -> Result<Vec<String>, AllocError> {
    let alloc = rt.alloc();
    if *outcome != Outcome::Done {
        return Ok(Vec::new(alloc));
    }
    let stored = match &left.desk.stored {
        Some(stored) => Some(stored.as_str()),
        None => None,
    };
    let texts = &left.desk.texts;
    warnings(alloc, words, names, texts, stored, left.ending, rt)
}

// Tells what is to be told on standard error of a run that has ended, and gives the status.
fn finish(
    rt: &HostRuntime,
    words: &[String],
    names: Option<Names<'_>>,
    outcome: Outcome,
    life: &LifeLine<'_, HostRuntime>,
    left: Left<'_, '_, '_, '_>,
) -> ExitCode {
    let alloc = rt.alloc();
    let said = amiss(rt, words, names, &outcome, left);
    let seen = Seen {
        texts: &left.desk.texts,
        ended: left.ended,
        trouble: trouble_of(left.desk),
        refused: left.refused,
    };
    let why = explain(alloc, words, names, outcome, &seen);
    life.wipe();
    warn(alloc, rt, said);
    end(alloc, rt, outcome, why)
}

// What a run is told beside its words: the names in them, and its card.
#[derive(Clone, Copy)]
struct Given<'w> {
    names: Option<Names<'w>>,
    card: Option<&'w str>,
    asked: Asked,
}

// Answers the words with the real desk and sink, and the shipped fields and sizing.
fn answer_words(rt: &HostRuntime, words: &[String], given: Given<'_>) -> ExitCode {
    let alloc = rt.alloc();
    let fields = match shipped_names() {
        Some(names) => Fields::new(names, REACH, shipped_shift),
        None => no_fields(shipped_shift),
    };
    let sizing = Sizing::new(shipped_band);
    let life = LifeLine::new(alloc, rt, watcher(rt));
    if let Some(cubes) = cubes_of(alloc, words) {
        tell_cubes(alloc, &life, cubes);
    }
    let (files, spared) = (FileDesk::new(alloc, rt), FileDesk::new(alloc, rt));
    let user = UserDesk::new(alloc, rt, given.names, &life, files, spared);
    let mut desk = CardDesk::new(user, given.asked);
    let output = SystemOutput::new(rt);
    let watch = LogWatch::new(alloc, WatchedSink::new(alloc, StdSink::new(&output), &life));
    let mut out = MarkedSink::new(watch, given.card.is_some());
    let outcome = answer(alloc, words, &mut desk, &mut out, &fields, &sizing);
    if let Some(refusal) = other_job(alloc, given.names, given.card, given.asked, desk.part()) {
        life.wipe();
        return tell_end(alloc, rt, refusal.status, refusal.why);
    }
    let log = out.take_mark();
    let outcome = keep_card(alloc, given.names, given.card, outcome, &mut desk, log);
    desk.desk.texts.recall(alloc, rt);
    let left = Left {
        desk: &desk.desk,
        ended: &out.sink.vertices,
        ending: out.sink.ending,
        refused: output.refused(),
    };
    finish(rt, words, given.names, outcome, &life, left)
}

// Answers the words, but where standard output goes to a file of the job, which is refused as a file that can not be stored is, or where the
// card is none.
fn answer_or_refuse(
    rt: &HostRuntime,
    words: &[String],
    names: Option<Names<'_>>,
    card: Option<&str>,
) -> ExitCode {
    let alloc = rt.alloc();
    let refused = match names {
        Some(names) => output_reason_of(alloc, rt, names, card),
        None => Ok(None),
    };
    match refused {
        Ok(None) => {}
        Ok(Some(why)) => return end(alloc, rt, Outcome::DeskFault, Ok(why)),
        Err(_) => return end(alloc, rt, Outcome::NoMemory, no_memory(alloc)),
    }
    match asked_of(alloc, rt, names, card) {
        Ok(asked) => answer_words(rt, words, Given { names, card, asked }),
        Err(refusal) => tell_end(alloc, rt, refusal.status, refusal.why),
    }
}

// Answers the words without the option of the card, where they are of a form that has files, and all words else.
fn answer_all(rt: &HostRuntime, words: &[String]) -> ExitCode {
    let alloc = rt.alloc();
    let Ok(given) = without_card(alloc, words) else {
        return end(alloc, rt, Outcome::NoMemory, no_memory(alloc));
    };
    let names = names_of(alloc, given.words.as_slice());
    match &given.card {
        Some(card) if names.is_some() => {
            answer_or_refuse(rt, given.words.as_slice(), names, Some(card.as_str()))
        }
        _ => answer_or_refuse(rt, words, names_of(alloc, words), None),
    }
}

// Says that there is no memory.
pub(crate) fn no_memory(alloc: Global) -> Result<String, AllocError> {
    String::from_str(alloc, "there is not enough memory")
}

fn main(rt: HostRuntime) -> ExitCode {
    let alloc = rt.alloc();
    match words(&rt) {
        Ok(words) => answer_all(&rt, words.as_slice()),
        Err(error) if error.kind() == ErrorKind::OutOfMemory => {
            end(alloc, &rt, Outcome::NoMemory, no_memory(alloc))
        }
        Err(error) => {
            let why = format!(in alloc; "the words can not be had as text ({error})");
            end(alloc, &rt, Outcome::Usage, why)
        }
    }
}
