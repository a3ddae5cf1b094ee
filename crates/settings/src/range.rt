// Which number of the command line is none, or out of its range.
use crate::parameter::{Parameter, Takes};
use std::io::Eprint;

/// Tells the range of the first number in the words that is invalid or out of its range. The program has refused the words already.
pub(crate) fn tell_range<R: Eprint>(rt: &R, words: &[String], parameters: &[Parameter<'_>]) {
    for index in 0..words.len() {
        let next = match words.get(index.saturating_add(1)) {
            Some(next) => next.as_str(),
            None => "",
        };
        for parameter in parameters {
            if let Takes::Number(least, most) = parameter.takes
                && let Some(value) = value_of(words[index].as_str(), next, parameter.name)
                && !is_within(value, least, most)
            {
                let name = parameter.name;
                // A text that can't be printed changes nothing of the status.
                let _ = eprintln!(rt; "\n--{name} takes a number from {least} to {most}.");
                return;
            }
        }
    }
}

// The value that the word gives the option, by itself or with the next one.
fn value_of<'a>(word: &'a str, next: &'a str, name: &str) -> Option<&'a str> {
    let rest = word.strip_prefix("--")?.strip_prefix(name)?;
    if rest.is_empty() {
        Some(next)
    } else {
        rest.strip_prefix('=')
    }
}

fn is_within(value: &str, least: u64, most: u64) -> bool {
    match value.parse::<u64>() {
        Ok(number) => least <= number && number <= most,
        Err(_) => false,
    }
}
