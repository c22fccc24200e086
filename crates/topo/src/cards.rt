// The card of a run: what is read of it before, and what is stored of it behind.
use crate::no_memory;
use card_files::{Asked, CardDesk, card_reason, difference_reason};
use grid_base::STANDARD_TEXT;
use job_card::{Card, FileMark, Part, Version, card_text, read_card};
use outside_io::{Desk, FetchFault, FileDesk, StoreFault};
use refusal_sentences::{long_card_reason, missing_reason, trouble_reason};
use std::alloc::{AllocError, Global};
use track_run::Outcome;
use user_files::{Names, SystemDesk, Work};

// The version of the program, as `--version` tells it.
const VERSION: Version = Version {
    major: 0,
    minor: 1,
    patch: 0,
};

// The statuses of a file that is too long or is missing, and of a card that is none or is that of another job.
const TOO_LONG: u8 = 5;

const MISSING: u8 = 11;

const OTHER_CARD: u8 = 16;

/// The desk of the program, for a run that may have a card.
pub(crate) type GuardedDesk<'a, 'l, 'w, R> = CardDesk<SystemDesk<'a, 'l, 'w, R>>;

/// Why a run is refused for its card, and with which status.
#[derive(Drop)]
pub(crate) struct CardRefusal {
    pub(crate) status: u8,
    pub(crate) why: Result<String, AllocError>,
}

// Why the file of a card was not had.
fn unread(
    alloc: Global,
    name: &str,
    fault: FetchFault,
    trouble: Result<String, AllocError>,
) -> CardRefusal {
    match fault {
        FetchFault::NoMemory => CardRefusal {
            status: Outcome::NoMemory.status(),
            why: no_memory(alloc),
        },
        FetchFault::Failed => CardRefusal {
            status: Outcome::DeskFault.status(),
            why: trouble,
        },
        FetchFault::TooLong { .. } => CardRefusal {
            status: TOO_LONG,
            why: long_card_reason(alloc, name),
        },
        FetchFault::Missing => CardRefusal {
            status: MISSING,
            why: missing_reason(alloc, name),
        },
    }
}

// The card of a file.
fn card_of(alloc: Global, rt: &HostRuntime, name: &str) -> Result<Card, CardRefusal> {
    let mut bytes = Vec::new(alloc);
    let mut files = FileDesk::new(alloc, rt);
    if let Err(fault) = files.fetch(name, STANDARD_TEXT, &mut bytes) {
        let why = trouble_reason(alloc, files.trouble());
        return Err(unread(alloc, name, fault, why));
    }
    match read_card(bytes.as_slice()) {
        Ok(card) => Ok(card),
        Err(fault) => Err(CardRefusal {
            status: OTHER_CARD,
            why: card_reason(alloc, name, fault),
        }),
    }
}

/// What a run of these names is to the card of this name, which is read where the run is held to it.
pub(crate) fn asked_of(
    alloc: Global,
    rt: &HostRuntime,
    names: Option<Names<'_>>,
    card: Option<&str>,
) -> Result<Asked, CardRefusal> {
    let (Some(names), Some(name)) = (names, card) else {
        return Ok(Asked::Nothing);
    };
    if let Work::Steps = names.work {
        return Ok(Asked::Made);
    }
    match card_of(alloc, rt, name) {
        Ok(card) => Ok(Asked::Held {
            card,
            decimals: names.decimals,
        }),
        Err(refusal) => Err(refusal),
    }
}

/// Why a run was refused whose job is not that of its card.
pub(crate) fn other_job(
    alloc: Global,
    names: Option<Names<'_>>,
    card: Option<&str>,
    asked: Asked,
    part: Option<Part>,
) -> Option<CardRefusal> {
    let (part, names, name) = (part?, names?, card?);
    let Asked::Held { card, .. } = asked else {
        return None;
    };
    let why = difference_reason(alloc, name, &card, part, names.mesh, names.other);
    Some(CardRefusal {
        status: OTHER_CARD,
        why,
    })
}

// Whether the log of a run that ended so is whole.
fn is_whole(outcome: &Outcome) -> bool {
    match outcome {
        Outcome::NoMemory | Outcome::Usage | Outcome::DeskFault | Outcome::SinkFault => false,
        _ => true,
    }
}

// The card of a run, where both its files were read and its log is whole.
fn made_of(
    names: Names<'_>,
    outcome: &Outcome,
    marks: Option<(FileMark, FileMark)>,
    log: Option<FileMark>,
) -> Option<Card> {
    let ((mesh, steps), log) = (marks?, log?);
    if names.work != Work::Steps || !is_whole(outcome) {
        return None;
    }
    Some(Card {
        program: VERSION,
        decimals: names.decimals,
        mesh,
        steps,
        log,
    })
}

// Stores a card, and gives the outcome of the run: the one that it had, or why the card was not stored.
fn store_card(
    alloc: Global,
    name: &str,
    card: &Card,
    outcome: Outcome,
    desk: &mut GuardedDesk<'_, '_, '_, HostRuntime>,
) -> Outcome {
    let Ok(text) = card_text(alloc, card) else {
        return Outcome::NoMemory;
    };
    let stored = desk.desk.stored.take();
    let result = desk.desk.store(name, text.as_slice());
    desk.desk.stored = stored;
    match result {
        Ok(()) => outcome,
        Err(StoreFault::NoMemory) => Outcome::NoMemory,
        Err(StoreFault::Failed) => Outcome::DeskFault,
    }
}

/// Stores the card of a run, where both its files were read and its log is whole, and gives the outcome: that of the run, or why the card
/// was not stored.
pub(crate) fn keep_card(
    alloc: Global,
    names: Option<Names<'_>>,
    card: Option<&str>,
    outcome: Outcome,
    desk: &mut GuardedDesk<'_, '_, '_, HostRuntime>,
    log: Option<FileMark>,
) -> Outcome {
    let (Some(names), Some(name)) = (names, card) else {
        return outcome;
    };
    match made_of(names, &outcome, desk.marks(), log) {
        Some(card) => store_card(alloc, name, &card, outcome, desk),
        None => outcome,
    }
}
