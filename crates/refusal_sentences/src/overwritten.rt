// What is said of files that a store meets.
use std::alloc::{AllocError, Global};

/// Says that a file that was read is overwritten, where it is kept as it was and what it would have lost, if it is.
pub fn overwriting_warning(
    alloc: Global,
    name: &str,
    kept: Option<&str>,
    lost: Option<&str>,
) -> Result<String, AllocError> {
    match (kept, lost) {
        (Some(kept), Some(lost)) => format!(in alloc;
            "{name} was read and is overwritten ({lost}): as it was, it is kept as {kept}"
        ),
        (Some(kept), None) => format!(in alloc;
            "{name} was read and is overwritten: as it was, it is kept as {kept}"
        ),
        _ => format!(in alloc; "{name} was read and is overwritten"),
    }
}

/// Says where meshes are stored whose prefix looks as if they were stored in a folder; `None` where it does not look so.
pub fn prefix_warning(
    alloc: Global,
    prefix: &str,
    is_folder: bool,
) -> Result<Option<String>, AllocError> {
    if prefix.ends_with('/') {
        let said = format!(in alloc;
            "the prefix ends in `/`, so nothing stands before the dash: the meshes are {prefix}-000000.obj and so on"
        )?;
        return Ok(Some(said));
    }
    if is_folder {
        let said = format!(in alloc;
            "the prefix {prefix} is a folder: the meshes are not in it but beside it, {prefix}-000000.obj and so on"
        )?;
        return Ok(Some(said));
    }
    Ok(None)
}

/// Says that standard output goes to a file that the job reads.
pub fn output_read_reason(alloc: Global, name: &str) -> Result<String, AllocError> {
    format!(in alloc;
        "standard output goes to {name}, which this job reads, and which `>` empties before the job begins: send it to a name of its own"
    )
}

/// Says that standard output goes to a file in whose place the job may store another.
pub fn output_stored_reason(alloc: Global, name: &str) -> Result<String, AllocError> {
    format!(in alloc;
        "standard output goes to {name}, a name that this job may store: what is written there would be lost, so send it to a name of its own"
    )
}
