// How long the files may become that the system lets this run write.
use crate::bounded_read::open_whole;
use std::alloc::Global;
use std::rt::Files;

// Where the system tells a run its limits, and how it begins the line on files.
const LIMITS: &str = "/proc/self/limits";

const FILE_SIZE: &str = "Max file size";

// How much is read of that.
const LIMITS_MAX: usize = 65_536;

// The limit that a text of limits tells, if it tells one.
fn told_limit(text: &str) -> Option<u64> {
    for line in text.lines() {
        if let Some(rest) = line.strip_prefix(FILE_SIZE) {
            return rest.split_whitespace().next()?.parse().ok();
        }
    }
    None
}

// The most bytes that a file of this run may have, where the system tells such a limit. A write past it would end the run by a signal.
pub(crate) fn file_size_limit<R: Files>(alloc: Global, rt: &R) -> Option<u64> {
    let mut bytes = Vec::new(alloc);
    open_whole(rt, LIMITS, LIMITS_MAX, &mut bytes).ok()?;
    told_limit(str::from_utf8(&bytes).ok()?)
}
