// Why a file could not be had or stored.
use mesh_base::Scale;
use outside_io::{Step, Trouble};
use std::alloc::{AllocError, Global};
use std::io::Error;

// What the system was asked to do, as it is said behind `could not`.
fn doing(step: Step) -> &'static str {
    match step {
        Step::Open => "be opened",
        Step::Read => "be read",
        Step::Look => "be stored: what has its name can not be replaced",
        Step::Create => "be stored: no file can be made in its folder",
        Step::Write => "be stored: it can not be written",
        Step::Rename => "be stored: it can not take its place",
    }
}

/// Says which file could not be read or stored, and why.
pub fn trouble_reason(alloc: Global, trouble: Option<&Trouble>) -> Result<String, AllocError> {
    match trouble {
        None => String::from_str(alloc, "a file could not be read or stored"),
        Some(trouble) => {
            let name = trouble.name.as_str();
            let what = doing(trouble.step);
            let error = trouble.error;
            format!(in alloc; "{name} could not {what} ({error})")
        }
    }
}

/// Says that standard output could not be written, and why, where that is known.
pub fn output_reason(alloc: Global, error: Option<Error>) -> Result<String, AllocError> {
    match error {
        None => String::from_str(alloc, "standard output could not be written"),
        Some(error) => format!(in alloc; "standard output could not be written ({error})"),
    }
}

/// Says that there is no file of a name.
pub fn missing_reason(alloc: Global, name: &str) -> Result<String, AllocError> {
    format!(in alloc; "there is no file {name}")
}

/// Says that a file is too long for a job of a scale, and with which option it may be longer, if with one.
pub fn long_reason(alloc: Global, scale: Scale, name: &str) -> Result<String, AllocError> {
    let (most, large) = (scale.text_most(), Scale::Large.text_most());
    if most < large {
        return format!(in alloc;
            "{name} is too long: a file may have up to {most} bytes, and with `--large` up to {large}"
        );
    }
    format!(in alloc; "{name} is too long: a file may have up to {most} bytes")
}

/// Says that the file of a card is too long.
pub fn long_card_reason(alloc: Global, name: &str) -> Result<String, AllocError> {
    let most = Scale::Standard.text_most();
    format!(in alloc; "{name} is too long: a file may have up to {most} bytes")
}
