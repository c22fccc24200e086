//! Worked examples: words that are read as a command, and words that are not.
use crate::ends::words_of;
use crate::same::assert_same;
use grid_base::NoMemory;
use mesh_base::Scale;
use std::alloc::Global;
use std::process::Abort;
use std::test::Fail;
use track_input::{Command, LogFiles, command_of};

// What is read beside the names of files: the scale, the decimals, and which mesh alone is asked for; of a try the standard scale, how
// many cubes stand in a row, and the key.
type Options = (Scale, u8, Option<u32>);

fn of_files(files: &LogFiles, only: Option<u32>) -> Options {
    (files.scale, files.decimals, only)
}

fn options_of(command: &Command) -> Options {
    match command {
        Command::Track {
            scale,
            decimals,
            ..
        }
        | Command::Convert {
            scale,
            decimals,
            ..
        }
        | Command::Check {
            scale,
            decimals,
            ..
        } => (*scale, *decimals, None),
        Command::Try { cubes, key } => (Scale::Standard, *cubes, Some(*key)),
        Command::Measure(files) | Command::Prove(files) => of_files(files, None),
        Command::Verify(given) => of_files(&given.files, None),
        Command::Replay(given) => of_files(&given.files, given.only),
    }
}

// What the words are read as; None, where they are no command.
fn read(alloc: Global, words: &[&str]) -> Result<Option<Options>, NoMemory> {
    let words = words_of(alloc, words)?;
    match command_of(alloc, &words)? {
        Some(command) => Ok(Some(options_of(&command))),
        None => Ok(None),
    }
}

// Words, and what they are read as.
const WORDS: [(&[&str], Option<Options>); 73] = [
    // Listed forms.
    (&["track", "m", "s", "p"], Some((Scale::Standard, 0, None))),
    (
        &["track", "m", "s", "p", "--decimals", "6"],
        Some((Scale::Standard, 6, None)),
    ),
    (
        &["convert", "m.obj", "n.ply", "--decimals", "0"],
        Some((Scale::Standard, 0, None)),
    ),
    (&["try", "1", "0"], Some((Scale::Standard, 1, Some(0)))),
    (
        &["try", "12", "4294967295"],
        Some((Scale::Standard, 12, Some(4_294_967_295))),
    ),
    (&["measure", "m", "l"], Some((Scale::Standard, 0, None))),
    (
        &["measure", "m", "l", "--decimals", "3"],
        Some((Scale::Standard, 3, None)),
    ),
    (&["prove", "m", "l"], Some((Scale::Standard, 0, None))),
    (&["verify", "m", "l", "p"], Some((Scale::Standard, 0, None))),
    (
        &["verify", "m", "l", "p", "--decimals", "3"],
        Some((Scale::Standard, 3, None)),
    ),
    (&["replay", "m", "l", "p"], Some((Scale::Standard, 0, None))),
    (
        &["replay", "m", "l", "p", "--decimals", "3"],
        Some((Scale::Standard, 3, None)),
    ),
    (
        &["replay", "m", "l", "p", "--only", "4294967295"],
        Some((Scale::Standard, 0, Some(4_294_967_295))),
    ),
    (
        &["replay", "m", "l", "p", "--decimals", "3", "--only", "0"],
        Some((Scale::Standard, 3, Some(0))),
    ),
    (&["check", "m.obj"], Some((Scale::Standard, 0, None))),
    (
        &["check", "m.ply", "--decimals", "2"],
        Some((Scale::Standard, 2, None)),
    ),
    (
        &["track", "m", "s", "p", "--large"],
        Some((Scale::Large, 0, None)),
    ),
    (
        &["verify", "m", "l", "p", "--large", "--decimals", "3"],
        Some((Scale::Large, 3, None)),
    ),
    (
        &["replay", "m", "l", "p", "--large", "--only", "0"],
        Some((Scale::Large, 0, Some(0))),
    ),
    (
        &["check", "m.obj", "--large"],
        Some((Scale::Large, 0, None)),
    ),
    // Words that are taken as these.
    (
        &["track", "--decimals", "3", "m", "s", "p"],
        Some((Scale::Standard, 3, None)),
    ),
    (
        &["track", "m", "s", "p", "--decimals=3"],
        Some((Scale::Standard, 3, None)),
    ),
    (
        &["convert", "--decimals=2", "--", "m.off", "n.obj"],
        Some((Scale::Standard, 2, None)),
    ),
    (
        &["replay", "m", "l", "p", "--only", "7", "--decimals", "2"],
        Some((Scale::Standard, 2, Some(7))),
    ),
    (
        &["replay", "--only=7", "m", "l", "p"],
        Some((Scale::Standard, 0, Some(7))),
    ),
    (
        &["try", "--", "2", "7"],
        Some((Scale::Standard, 2, Some(7))),
    ),
    (
        &["convert", "--large", "m.obj", "n.ply", "--decimals", "2"],
        Some((Scale::Large, 2, None)),
    ),
    (
        &["measure", "m", "--large", "l"],
        Some((Scale::Large, 0, None)),
    ),
    (
        &["prove", "--decimals=2", "m", "l", "--large"],
        Some((Scale::Large, 2, None)),
    ),
    (
        &["replay", "--only=7", "m", "--large", "l", "p"],
        Some((Scale::Large, 0, Some(7))),
    ),
    // Words of no form.
    (&[], None),
    (&["track"], None),
    (&["Track", "m", "s", "p"], None),
    (&["track", "m", "s"], None),
    (&["track", "m", "s", "p", "q"], None),
    (&["track", "m", "", "p"], None),
    (&["track", "m", "s", "-p"], None),
    (&["track", "--", "m", "s", "-p"], None),
    (&["track", "m", "s", "p", "--decimals"], None),
    (&["track", "m", "s", "p", "--decimals", "7"], None),
    (&["track", "m", "s", "p", "--decimals", "03"], None),
    (&["track", "m", "s", "p", "--decimal", "3"], None),
    (
        &["track", "m", "s", "p", "--decimals", "3", "--decimals", "3"],
        None,
    ),
    (&["track", "m", "s", "p", "--large", "--large"], None),
    (&["track", "m", "s", "p", "--large=true"], None),
    (&["track", "m", "s", "p", "--", "--large"], None),
    (&["measure", "m"], None),
    (&["measure", "m", "-l"], None),
    (&["measure", "m", "l", "p"], None),
    (&["prove", "m", "l", "p"], None),
    (&["verify", "m", "l"], None),
    (&["verify", "m", "l", "p", "q"], None),
    (&["replay", "m", "l"], None),
    (&["replay", "m", "l", "p", "--only"], None),
    (&["replay", "m", "l", "p", "--only", "4294967296"], None),
    (&["replay", "m", "l", "p", "--only", "07"], None),
    (&["check", "m.stl"], None),
    (&["check", "m.obj", "n.obj"], None),
    (&["try", "2"], None),
    (&["try", "0", "1"], None),
    (&["try", "13", "1"], None),
    (&["try", "02", "1"], None),
    (&["try", "2", "-1"], None),
    (&["try", "2", "4294967296"], None),
    (&["try", "2", "7", "7"], None),
    (&["try", "2", "7", "--large"], None),
    (&["convert", "t.OBJ", "t.off"], None),
    (&["convert", "t.obj", "t.stl"], None),
    (&["convert", "t.obj", "-t.off"], None),
    (&["convert", "t.obj", "off"], None),
    (&["convert", "t.obj"], None),
    (&["convert", "t.obj", "t.off", "--decimals", "7"], None),
    (&["convert", "t.obj", "t.off", "t.ply"], None),
];

#[test]
fn words_are_read_as_commands_or_as_none(rt: HostRuntime) -> Result<(), Fail> {
    for (words, wanted) in &WORDS {
        let found = read(rt.alloc(), words)?;
        assert_same(&rt, &(words, found), &(words, *wanted));
    }
    Ok(())
}
