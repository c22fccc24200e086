//! What is told of a card that is none, or is that of another job.
use job_card::{Card, CardFault, Part};
use std::alloc::{AllocError, Global};

// What a card has on a line.
fn wanted(line: u32) -> &'static str {
    match line {
        1 => "`topo card 1`",
        2 => "`program` and a version of three numbers",
        3 => "`decimals` and a digit from 0 to 6",
        4 => "`mesh`, a number of bytes, and 64 small hex digits",
        5 => "`steps`, a number of bytes, and 64 small hex digits",
        6 => "`log`, a number of bytes, and 64 small hex digits",
        7 => "`end`",
        _ => "nothing",
    }
}

/// Says at which line a text is not that of a card, and what a card has there.
pub fn card_reason(alloc: Global, name: &str, fault: CardFault) -> Result<String, AllocError> {
    let (line, wanted) = (fault.line, wanted(fault.line));
    format!(in alloc;
        "{name}, line {line}: a card has {wanted} there, with one space between words and a line feed after each line"
    )
}

/// Says which part of the job is another than that of the card.
pub fn difference_reason(
    alloc: Global,
    name: &str,
    card: &Card,
    part: Part,
    mesh: &str,
    log: &str,
) -> Result<String, AllocError> {
    match part {
        Part::Decimals => {
            let decimals = card.decimals;
            format!(in alloc;
                "the card {name} is that of a job of other decimals: call it with `--decimals {decimals}`"
            )
        }
        Part::Mesh => {
            format!(in alloc;
                "the card {name} is that of another mesh than {mesh}: the bytes of the file are not those with which the log began"
            )
        }
        Part::Log => {
            format!(in alloc;
                "the card {name} is that of another log than {log}: the bytes of the file are not those that `track` wrote"
            )
        }
    }
}
