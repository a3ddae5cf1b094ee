// How long tuples take to be read from their texts, and to be written.
ghost use Rattle.std.specs.Prelude.{◌≡◌, OnOk, map};
ghost use Rattle.std.specs.List.{flat_map};
ghost use Rattle.tuples.specs.Texts.{tuple_text};

use crate::timing::{now, print_since};
use std::alloc::{AllocError, Global};
use std::rt::Clock;
use tuples::{Refusal, Tuple};

// How many texts there are; a longer measure goes over them again.
const TEXTS: u32 = 1000;

/// Reads this many tuples, to the next thousand below, from their texts (`parse`) and writes them (`write`), and prints how
/// long each took. Its answer is how many tuples or bytes the last pass made.
pub fn measure(rt: &(impl Clock + Eprint), alloc: Global, count: u32) -> Result<(), Refusal> {
    let mut texts = Vec::new(alloc);
    let mut tuples = Vec::new(alloc);
    let mut out = Vec::new(alloc);
    measure_all(rt, alloc, &mut texts, &mut tuples, &mut out, count)
}

// What is measured is borrowed, since each exit of a function that owns it is proved.
fn measure_all(
    rt: &(impl Clock + Eprint),
    alloc: Global,
    texts: &mut Vec<Vec<u8>>,
    tuples: &mut Vec<Tuple>,
    out: &mut Vec<u8>,
    count: u32,
) -> Result<(), Refusal> {
    push_texts(alloc, texts)?;
    let passes = count / TEXTS;
    let amount = u64::from(passes) * u64::from(TEXTS);
    let start = now(rt);
    let count = parse_again(alloc, texts, tuples, passes);
    print_since(rt, "parse", start, amount, count)?;
    let start = now(rt);
    let size = write_again(tuples, out, passes);
    print_since(rt, "write", start, amount, size)
}

fn push_texts(alloc: Global, texts: &mut Vec<Vec<u8>>) -> Result<(), AllocError> {
    for number in 0..TEXTS {
        texts.reserve(1)?;
        texts.push_reserved(text_of(alloc, number)?.into_bytes());
    }
    Ok(())
}

// Half of them name a user, and half a userset.
fn text_of(alloc: Global, number: u32) -> Result<String, AllocError> {
    if number % 2 == 0 {
        format!(in alloc; "doc:d{number}#viewer@u{number}")
    } else {
        format!(in alloc; "doc:d{number}#viewer@group:g{number}#member")
    }
}

fn parse_again(
    alloc: Global,
    texts: &[Vec<u8>],
    tuples: &mut Vec<Tuple>,
    passes: u32,
) -> Result<u64, Refusal> {
    for _ in 0..passes {
        parse_all(alloc, texts, tuples)?;
    }
    Ok(tuples.len() as u64)
}

// The tuples of the texts, instead of those that were there.
fn parse_all(alloc: Global, texts: &[Vec<u8>], tuples: &mut Vec<Tuple>) -> Result<(), Refusal>
    ensures { OnOk result (map tuple_text tuples.new.items ≡ map (λ t. t.items) texts.now) }
{
    tuples.clear();
    for text in texts {
        tuples.reserve(1)?;
        tuples.push_reserved(Tuple::parse(alloc, text)?);
    }
    Ok(())
}

fn write_again(tuples: &[Tuple], out: &mut Vec<u8>, passes: u32) -> Result<u64, Refusal> {
    for _ in 0..passes {
        write_all(tuples, out)?;
    }
    Ok(out.len() as u64)
}

// The texts of the tuples, one after another, instead of what was there.
fn write_all(tuples: &[Tuple], out: &mut Vec<u8>) -> Result<(), AllocError>
    ensures { OnOk result (out.new.items ≡ flat_map tuple_text tuples.now) }
{
    out.clear();
    for tuple in tuples {
        tuple.write_to(out)?;
    }
    Ok(())
}
