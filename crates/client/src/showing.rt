// What is printed of an answer, and told of a refusal.
use crate::advising::advice;
use crate::cause::cause_in;
use crate::end::End;
use crate::fault::Fault;
use crate::kind::RequestLine;
use crate::place::Place;
use refusal::Refusal;

/// Prints the answer, and what is done about a refusal. Whether it is none.
pub(crate) fn show(
    rt: &HostRuntime,
    place: Place,
    request: &RequestLine,
    line: &str,
    refusal: Option<Refusal>,
) -> Result<bool, End> {
    show_line(rt, place, line)?;
    match refusal {
        Some(refusal) => {
            tell_refusal(rt, place, request, refusal);
            Ok(false)
        }
        None => Ok(true),
    }
}

/// Prints the line.
pub(crate) fn show_line(rt: &HostRuntime, place: Place, line: &str) -> Result<(), End> {
    match println!(rt; "{line}") {
        Ok(()) => Ok(()),
        Err(error) => Err(End::at(place, Fault::Output(error))),
    }
}

/// Tells what of the request was refused, if that is seen in it, and else what is done about it.
pub(crate) fn tell_refusal(
    rt: &HostRuntime,
    place: Place,
    request: &RequestLine,
    refusal: Refusal,
) {
    let _ = match cause_in(rt.alloc(), request.line.as_str(), refusal) {
        Ok(Some(cause)) => eprintln!(rt; "zanstore: call: {place}{refusal}: {cause}"),
        _ => {
            let advice = advice(request.kind, refusal);
            eprintln!(rt; "zanstore: call: {place}{refusal}: {advice}")
        }
    };
}
