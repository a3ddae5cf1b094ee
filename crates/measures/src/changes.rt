// Touches of tuples, by their texts.
use std::alloc::Global;
use tuples::{Change, Refusal, Tuple};

/// Appends a touch of the tuple with this text to these changes.
pub fn push_touch(alloc: Global, changes: &mut Vec<Change>, text: &[u8]) -> Result<(), Refusal> {
    changes.reserve(1)?;
    changes.push_reserved(Change::Touch(Tuple::parse(alloc, text)?));
    Ok(())
}

/// The same for this many tuples, whose texts have a number from 0 on between these parts.
pub fn push_touches(
    alloc: Global,
    changes: &mut Vec<Change>,
    count: u32,
    before: &str,
    after: &str,
) -> Result<(), Refusal> {
    for number in 0..count {
        let text = format!(in alloc; "{before}{number}{after}")?;
        push_touch(alloc, changes, text.as_bytes())?;
    }
    Ok(())
}
