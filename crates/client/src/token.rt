// The store and the place that a token names.
use crate::advising::advice;
use crate::end::End;
use crate::fault::Fault;
use crate::kind::Kind;
use crate::place::Place;
use crate::showing::show_line;
use json_lines::write_refusal;
use refusal::Refusal;
use std::alloc::AllocError;
use std::str;
use zookie::Zookie;

/// Prints which store and place the token names: `store 1 place 5`. Whether it names one; if not, that is told as a server would refuse it.
pub(crate) fn show_place(rt: &HostRuntime, place: Place, token: &str) -> Result<bool, End> {
    match Zookie::read(token.as_bytes()) {
        Some(named) => {
            show_named(rt, place, named)?;
            Ok(true)
        }
        None => {
            show_refused(rt, place, Refusal::BadZookie)?;
            Ok(false)
        }
    }
}

fn show_named(rt: &HostRuntime, place: Place, named: Zookie) -> Result<(), End> {
    match line_of(rt, named) {
        Ok(line) => show_line(rt, place, line.as_str()),
        Err(_) => Err(End::at(place, Fault::NoMemory)),
    }
}

fn line_of(rt: &HostRuntime, named: Zookie) -> Result<String, AllocError> {
    format!(in rt.alloc(); "store {} place {}", named.store, named.place)
}

// Prints the refusal as a server writes it, and tells what to do about it.
fn show_refused(rt: &HostRuntime, place: Place, refusal: Refusal) -> Result<(), End> {
    let mut text = Vec::new(rt.alloc());
    if write_refusal(refusal, &mut text).is_err() {
        return Err(End::at(place, Fault::NoMemory));
    }
    // It has ASCII alone.
    if let Ok(line) = str::from_utf8(&text) {
        show_line(rt, place, line)?;
    }
    let advice = advice(Kind::Other, refusal);
    let _ = eprintln!(rt; "zanstore: call: {place}{refusal}: {advice}");
    Ok(())
}
