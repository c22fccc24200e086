//! The option `--card FILE` among the words of a command line.
use std::alloc::{AllocError, Global};

/// The words of a command without the option of its card, and the card's name, if they tell one.
#[derive(Drop)]
pub struct CardWords {
    pub words: Vec<String>,
    pub card: Option<String>,
}

// Where the option stands, how many words it has, and the name that it tells.
#[derive(Clone, Copy)]
struct Place<'a> {
    at: usize,
    count: usize,
    name: &'a str,
}

// Whether a command may have a card.
fn takes_card(command: &str) -> bool {
    match command {
        "track" | "measure" | "prove" | "verify" | "replay" => true,
        _ => false,
    }
}

// Whether a word can be the name of a file.
fn is_file_word(word: &str) -> bool {
    !word.is_empty() && !word.starts_with('-')
}

// The option that begins at this word, if one does.
fn option_at<'a>(words: &'a [String], at: usize) -> Option<Place<'a>> {
    let word = words.get(at)?.as_str();
    if let Some(name) = word.strip_prefix("--card=") {
        return is_file_word(name).then_some(Place { at, count: 1, name });
    }
    if word != "--card" {
        return None;
    }
    let name = words.get(at.saturating_add(1))?.as_str();
    is_file_word(name).then_some(Place { at, count: 2, name })
}

// The first such option behind the command's name and before a word `--`.
fn place_in<'a>(words: &'a [String]) -> Option<Place<'a>> {
    if !takes_card(words.first()?.as_str()) {
        return None;
    }
    for at in 1..words.len() {
        if words[at].as_str() == "--" {
            return None;
        }
        if let Some(place) = option_at(words, at) {
            return Some(place);
        }
    }
    None
}

/// Takes the first option `--card FILE` or `--card=FILE` out of the words of a command that may have a card. What is misspelt, or is there
/// once more, stays among the words, which are then of no listed form.
pub fn without_card(alloc: Global, words: &[String]) -> Result<CardWords, AllocError> {
    let mut rest = Vec::new(alloc);
    let Some(place) = place_in(words) else {
        for word in words {
            rest.push(String::from_str(alloc, word.as_str())?)?;
        }
        return Ok(CardWords {
            words: rest,
            card: None,
        });
    };
    for (i, word) in words.iter().enumerate() {
        if i < place.at || i - place.at >= place.count {
            rest.push(String::from_str(alloc, word.as_str())?)?;
        }
    }
    Ok(CardWords {
        words: rest,
        card: Some(String::from_str(alloc, place.name)?),
    })
}
