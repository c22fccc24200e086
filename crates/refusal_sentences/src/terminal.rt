// Sentences as a terminal may have them.
use std::alloc::{AllocError, Global};

// Whether a character is none that is seen: it steers a terminal, or turns the way in which what follows is written.
fn is_steering(c: char) -> bool {
    match c {
        '\u{61c}' | '\u{200e}' | '\u{200f}' => true,
        '\u{2028}'..='\u{202e}' | '\u{2066}'..='\u{2069}' => true,
        _ => c.is_control(),
    }
}

/// A sentence in which each character that is not seen is told by its number, as `\u001b`, so that a name in it can not steer a terminal.
pub fn plain(alloc: Global, said: &str) -> Result<String, AllocError> {
    let mut shown = String::new(alloc);
    for c in said.chars() {
        if is_steering(c) {
            let number = u32::from(c);
            let told = format!(in alloc; "\\u{number:04x}")?;
            shown.push_str(told.as_str())?;
        } else {
            shown.push(c)?;
        }
    }
    Ok(shown)
}
