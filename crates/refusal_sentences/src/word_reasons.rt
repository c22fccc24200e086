// Why the words of a command line are of no listed form.
use line_text::{is_word, spelled_number};
use std::alloc::{AllocError, Global};

// Whether a word may name a file: it is not empty and has no dash in front.
fn is_file_word(word: &[u8]) -> bool {
    match word {
        [] => false,
        [first, ..] => *first != b'-',
    }
}

// Whether the ending of a name picks a format.
fn has_format(word: &[u8]) -> bool {
    word.ends_with(b".obj") || word.ends_with(b".off") || word.ends_with(b".ply")
}

// Whether a word would have such an ending, were its letters small.
fn has_format_in_capitals(word: &[u8]) -> bool {
    let (_, ending) = word.split_at(word.len().saturating_sub(4));
    ending.eq_ignore_ascii_case(b".obj")
        || ending.eq_ignore_ascii_case(b".off")
        || ending.eq_ignore_ascii_case(b".ply")
}

// Whether a word is one digit from 0 to 6.
fn is_decimals(word: &[u8]) -> bool {
    match word {
        [digit] => *digit >= b'0' && *digit <= b'6',
        _ => false,
    }
}

// Whether a word is a number from `low` to `high`, in digits with no needless zero in front.
fn is_number_in(low: u32, high: u32, word: &[u8]) -> bool {
    match spelled_number(word) {
        Some(n) => u128::from(low) <= n && n <= u128::from(high),
        None => false,
    }
}

// An option of a command that takes files.
#[derive(Clone, Copy, PartialEq, Eq)]
enum Named {
    // `--decimals N`.
    Decimals,
    // `--only K`.
    Only,
}

// What the next word behind a command that takes files can be.
#[derive(Clone, Copy, PartialEq, Eq)]
enum Awaited {
    // The name of a file, or an option.
    Any,
    // The value of an option.
    Value(Named),
    // The name of a file alone, behind `--`.
    File,
}

// What a word behind a command that takes files is taken as.
#[derive(Clone, Copy)]
enum Taken<'a> {
    // The end of the options, `--`.
    Dashes,
    // `--large`.
    Large,
    // An option, whose value is the next word.
    Option(Named),
    // The value of an option: the word behind it, or what stands behind `--decimals=` or `--only=`.
    Value(Named, &'a str),
    // An option that there is not.
    Unknown(&'a str),
    // The name of a file.
    File(&'a str),
}

// What a word is taken as that may be an option with nothing behind it, or the name of a file.
fn option_or_file(wanted: Wanted, word: &str) -> Taken<'_> {
    let bytes = word.as_bytes();
    if is_word(bytes, b"--") {
        return Taken::Dashes;
    }
    if is_word(bytes, b"--large") {
        return Taken::Large;
    }
    if is_word(bytes, b"--decimals") {
        return Taken::Option(Named::Decimals);
    }
    if wanted.only && is_word(bytes, b"--only") {
        return Taken::Option(Named::Only);
    }
    match bytes {
        [b'-', _, ..] => Taken::Unknown(word),
        _ => Taken::File(word),
    }
}

// What a word is taken as that may be an option.
fn any_word(wanted: Wanted, word: &str) -> Taken<'_> {
    if let Some(digit) = word.strip_prefix("--decimals=") {
        return Taken::Value(Named::Decimals, digit);
    }
    match word.strip_prefix("--only=") {
        Some(number) if wanted.only => Taken::Value(Named::Only, number),
        _ => option_or_file(wanted, word),
    }
}

// What a word is taken as. Options may stand before the files, among them and behind them.
fn taken_as(wanted: Wanted, awaited: Awaited, word: &str) -> Taken<'_> {
    match awaited {
        Awaited::Value(named) => Taken::Value(named, word),
        Awaited::File => Taken::File(word),
        Awaited::Any => any_word(wanted, word),
    }
}

// Says what is wrong with a word as the decimals, if anything is.
fn decimals_reason(alloc: Global, digit: &str) -> Result<Option<String>, AllocError> {
    if is_decimals(digit.as_bytes()) {
        return Ok(None);
    }
    let said = format!(in alloc; "{digit:?} are no decimals, which are one digit from 0 to 6")?;
    Ok(Some(said))
}

// Says what is wrong with a word as the number of a mesh, if anything is.
fn only_reason(alloc: Global, number: &str) -> Result<Option<String>, AllocError> {
    let most = u32::MAX;
    if is_number_in(0, most, number.as_bytes()) {
        return Ok(None);
    }
    let said = format!(in alloc;
        "{number:?} is no number of a mesh, which is 0 to {most}, in digits with no needless zero in front"
    )?;
    Ok(Some(said))
}

// The word of an option.
fn option_word(named: Named) -> &'static str {
    match named {
        Named::Decimals => "--decimals",
        Named::Only => "--only",
    }
}

// Says that an option is given twice, if it is.
fn again_reason(alloc: Global, word: &str, again: bool) -> Result<Option<String>, AllocError> {
    if !again {
        return Ok(None);
    }
    Ok(Some(format!(in alloc; "`{word}` is given twice")?))
}

// Says what is wrong with the value of an option, if anything is; `again` says that it was given before.
fn value_reason(
    alloc: Global,
    named: Named,
    value: &str,
    again: bool,
) -> Result<Option<String>, AllocError> {
    if again {
        return again_reason(alloc, option_word(named), again);
    }
    match named {
        Named::Decimals => decimals_reason(alloc, value),
        Named::Only => only_reason(alloc, value),
    }
}

// Which options a command that takes files has.
fn options_of(wanted: Wanted) -> &'static str {
    if wanted.only {
        "the only options are `--large`, `--decimals N` and `--only K`"
    } else {
        "the only options are `--large` and `--decimals N`"
    }
}

// Says that there is no such option.
fn unknown_reason(alloc: Global, wanted: Wanted, word: &str) -> Result<String, AllocError> {
    if is_word(word.as_bytes(), b"--help") || is_word(word.as_bytes(), b"-h") {
        return format!(in alloc; "{word} stands alone, or alone after a command");
    }
    let options = options_of(wanted);
    format!(in alloc; "{word:?} has a dash in front, so it is no name of a file, and {options}")
}

// The verb for so many words.
fn are(count: usize) -> &'static str {
    if count == 1 { "is" } else { "are" }
}

// What a command wants: how it is called, so many files, whether each has to end in a format's ending, and whether it takes `--only K`.
#[derive(Clone, Copy)]
struct Wanted {
    form: &'static str,
    files: usize,
    formats: bool,
    only: bool,
}

// What `track` wants.
const TRACK: Wanted = Wanted {
    form: "track MESH STEPS PREFIX",
    files: 3,
    formats: false,
    only: false,
};

// What `convert` wants.
const CONVERT: Wanted = Wanted {
    form: "convert FROM TO",
    files: 2,
    formats: true,
    only: false,
};

// What `measure` wants.
const MEASURE: Wanted = Wanted {
    form: "measure MESH LOG",
    files: 2,
    formats: false,
    only: false,
};

// What `prove` wants.
const PROVE: Wanted = Wanted {
    form: "prove MESH LOG",
    files: 2,
    formats: false,
    only: false,
};

// What `verify` wants.
const VERIFY: Wanted = Wanted {
    form: "verify MESH LOG PROOF",
    files: 3,
    formats: false,
    only: false,
};

// What `replay` wants.
const REPLAY: Wanted = Wanted {
    form: "replay MESH LOG PREFIX",
    files: 3,
    formats: false,
    only: true,
};

// What `check` wants.
const CHECK: Wanted = Wanted {
    form: "check MESH",
    files: 1,
    formats: true,
    only: false,
};

// What the command of a name wants, if it takes files.
fn wanted_by(command: &str) -> Option<Wanted> {
    match command {
        "track" => Some(TRACK),
        "convert" => Some(CONVERT),
        "measure" => Some(MEASURE),
        "prove" => Some(PROVE),
        "verify" => Some(VERIFY),
        "replay" => Some(REPLAY),
        "check" => Some(CHECK),
        _ => None,
    }
}

// Says that the ending of a word picks no format.
fn ending_reason(alloc: Global, word: &str) -> Result<String, AllocError> {
    let hint = if has_format_in_capitals(word.as_bytes()) {
        ": an ending counts in small letters alone, so rename the file"
    } else {
        ""
    };
    format!(in alloc; "{word:?} ends neither in .obj nor in .off nor in .ply{hint}")
}

// Says what is wrong with a word as the name of a file, if anything is; so many stand before it.
fn file_reason(
    alloc: Global,
    wanted: Wanted,
    before: usize,
    word: &str,
) -> Result<Option<String>, AllocError> {
    let form = wanted.form;
    if before >= wanted.files {
        let options = if wanted.only {
            "`--large`, `--decimals N` and `--only K`"
        } else {
            "`--large` and `--decimals N`"
        };
        let said = format!(in alloc;
            "{word:?} is a word too many: after the files of `topo {form}` only {options} may stand"
        )?;
        return Ok(Some(said));
    }
    if !is_file_word(word.as_bytes()) {
        let said = format!(in alloc;
            "{word:?} is no name of a file here: it is empty, or has a dash in front"
        )?;
        return Ok(Some(said));
    }
    if wanted.formats && !has_format(word.as_bytes()) {
        return Ok(Some(ending_reason(alloc, word)?));
    }
    Ok(None)
}

// Says what is wrong with a word behind `--` as the name of a file, if anything is.
fn behind_dashes_reason(
    alloc: Global,
    wanted: Wanted,
    before: usize,
    word: &str,
) -> Result<Option<String>, AllocError> {
    if word.starts_with('-') {
        let said = format!(in alloc;
            "{word:?} stands after `--`, where names of files stand alone, and it has a dash in front"
        )?;
        return Ok(Some(said));
    }
    file_reason(alloc, wanted, before, word)
}

// Says that there are too few files.
fn few_files_reason(alloc: Global, wanted: Wanted, files: usize) -> Result<String, AllocError> {
    let (form, wants, are) = (wanted.form, wanted.files, are(files));
    let names = if wants == 1 {
        "name of a file"
    } else {
        "names of files"
    };
    format!(in alloc; "`topo {form}` wants {wants} {names}, and {files} {are} given")
}

// Says what is wrong with the words behind a command that takes files: it tells the first word that is at fault, in the order in which they
// are taken, or what is lacking at their end.
fn files_reason(alloc: Global, wanted: Wanted, words: &[String]) -> Result<String, AllocError> {
    let mut awaited = Awaited::Any;
    let mut files: usize = 0;
    let mut has_large = false;
    let mut has_decimals = false;
    let mut has_only = false;
    for word in words {
        let reason = match taken_as(wanted, awaited, word.as_str()) {
            Taken::Dashes => {
                awaited = Awaited::File;
                None
            }
            Taken::Large => {
                let reason = again_reason(alloc, "--large", has_large)?;
                has_large = true;
                reason
            }
            Taken::Option(named) => {
                awaited = Awaited::Value(named);
                None
            }
            Taken::Value(Named::Decimals, digit) => {
                let reason = value_reason(alloc, Named::Decimals, digit, has_decimals)?;
                awaited = Awaited::Any;
                has_decimals = true;
                reason
            }
            Taken::Value(Named::Only, number) => {
                let reason = value_reason(alloc, Named::Only, number, has_only)?;
                awaited = Awaited::Any;
                has_only = true;
                reason
            }
            Taken::Unknown(word) => Some(unknown_reason(alloc, wanted, word)?),
            Taken::File(word) => {
                let reason = if awaited == Awaited::File {
                    behind_dashes_reason(alloc, wanted, files, word)?
                } else {
                    file_reason(alloc, wanted, files, word)?
                };
                files = files.saturating_add(1);
                reason
            }
        };
        if let Some(reason) = reason {
            return Ok(reason);
        }
    }
    match awaited {
        Awaited::Value(Named::Decimals) => {
            String::from_str(alloc, "`--decimals` wants a digit from 0 to 6")
        }
        Awaited::Value(Named::Only) => {
            String::from_str(alloc, "`--only` wants the number of a mesh")
        }
        _ => few_files_reason(alloc, wanted, files),
    }
}

// Says what is wrong with a word as a number behind `try`, if anything is; so many stand before it.
fn number_reason(
    alloc: Global,
    most_cubes: u8,
    before: usize,
    word: &str,
) -> Result<Option<String>, AllocError> {
    let most_key = u32::MAX;
    let said = match before {
        0 if is_number_in(1, u32::from(most_cubes), word.as_bytes()) => return Ok(None),
        1 if is_number_in(0, most_key, word.as_bytes()) => return Ok(None),
        0 => format!(in alloc;
            "{word:?} is no N of `topo try N KEY`: N is 1 to {most_cubes}, in digits with no needless zero in front"
        ),
        1 => format!(in alloc;
            "{word:?} is no KEY of `topo try N KEY`: KEY is 0 to {most_key}, in digits with no needless zero in front"
        ),
        _ => format!(in alloc; "{word:?} is a word too many: `topo try N KEY` wants two numbers"),
    }?;
    Ok(Some(said))
}

// Says what is wrong with the words behind `try`: it tells the first that is at fault, or that there are too few.
fn numbers_reason(alloc: Global, most_cubes: u8, words: &[String]) -> Result<String, AllocError> {
    let most_key = u32::MAX;
    let mut numbers: usize = 0;
    let mut has_dashes = false;
    for word in words {
        let word = word.as_str();
        if word == "--" && !has_dashes {
            has_dashes = true;
        } else if let Some(reason) = number_reason(alloc, most_cubes, numbers, word)? {
            return Ok(reason);
        } else {
            numbers = numbers.saturating_add(1);
        }
    }
    let are = are(numbers);
    format!(in alloc;
        "`topo try N KEY` wants two numbers, and {numbers} {are} given: N is 1 to {most_cubes}, KEY is 0 to {most_key}"
    )
}

// Says what is wrong with the word of a command that has no words behind it, or is none.
fn command_reason(alloc: Global, command: &str) -> Result<String, AllocError> {
    let bytes = command.as_bytes();
    if is_word(bytes, b"--help") || is_word(bytes, b"-h") || is_word(bytes, b"--version") {
        return format!(in alloc; "{command} stands alone");
    }
    format!(in alloc;
        "{command:?} is no command: the commands are `track`, `convert`, `check`, `measure`, `prove`, `verify`, `replay` and `try`"
    )
}

/// Says which word of a command line is at fault, where the words are of no listed form. N of `try` is at most `most_cubes`.
pub fn words_reason(alloc: Global, words: &[String], most_cubes: u8) -> Result<String, AllocError> {
    let Some((command, others)) = words.split_first() else {
        return String::from_str(alloc, "no command is given");
    };
    let command = command.as_str();
    if let Some(wanted) = wanted_by(command) {
        return files_reason(alloc, wanted, others);
    }
    if is_word(command.as_bytes(), b"try") {
        return numbers_reason(alloc, most_cubes, others);
    }
    command_reason(alloc, command)
}
