// How flows ended, as texts.
use answer_flow::{CheckEnd, ReadEnd, WatchEnd};
use care_flow::{CareEnd, Resolved};
use commit_flow::WriteEnd;
use std::alloc::Global;
use std::fmt::Write;
use tuples::{Change, Refusal, Tuple, Version};

fn push_number(log: &mut String, number: u64) -> Result<(), Refusal> {
    write!(log, "{number}").map_err(|_| Refusal::NoMemory)
}

fn log_refusal(log: &mut String, refusal: Refusal) -> Result<(), Refusal> {
    log.push_str("refused ")?;
    log.push_str(refusal.name())?;
    log.push_str("; ")?;
    Ok(())
}

pub(crate) fn log_none(log: &mut String) -> Result<(), Refusal> {
    log.push_str("not at its end; ")?;
    Ok(())
}

pub(crate) fn log_write(log: &mut String, end: Option<WriteEnd>) -> Result<(), Refusal> {
    match end {
        Some(WriteEnd::Wrote(place)) => {
            log.push_str("wrote ")?;
            push_number(log, place)?;
            log.push_str("; ")?;
        }
        Some(WriteEnd::Refused(refusal)) => log_refusal(log, refusal)?,
        Some(WriteEnd::Cancelled) => log.push_str("cancelled; ")?,
        None => log_none(log)?,
    }
    Ok(())
}

fn log_resolved(log: &mut String, resolved: &Resolved) -> Result<(), Refusal> {
    let (what, id) = match resolved {
        Resolved::Committed(id, _) => ("commit ", *id),
        Resolved::Aborted(id) => ("abort ", *id),
        Resolved::Undecided(id) => ("undecided ", *id),
    };
    log.push_str(what)?;
    push_number(log, id.epoch)?;
    log.push_str(".")?;
    push_number(log, id.number)?;
    if let Resolved::Committed(_, place) = resolved {
        log.push_str(" ")?;
        push_number(log, *place)?;
    }
    log.push_str(", ")?;
    Ok(())
}

pub(crate) fn log_care(log: &mut String, end: Option<CareEnd>) -> Result<(), Refusal> {
    match end {
        Some(CareEnd::Done) => log.push_str("done; ")?,
        Some(CareEnd::Resolved(all)) => {
            for resolved in &all {
                log_resolved(log, resolved)?;
            }
            log.push_str("done; ")?;
        }
        Some(CareEnd::Refused(refusal)) => log_refusal(log, refusal)?,
        None => log_none(log)?,
    }
    Ok(())
}

// An event by its place, and whether the tuple is there after it.
fn log_event(log: &mut String, event: &Version) -> Result<(), Refusal> {
    push_number(log, event.place)?;
    log.push_str(match &event.change {
        Change::Touch(_) => " +, ",
        Change::Delete(_) => " -, ",
    })?;
    Ok(())
}

pub(crate) fn log_watch(log: &mut String, end: WatchEnd) -> Result<(), Refusal> {
    match end {
        WatchEnd::Answered(place, events) => {
            for event in &events {
                log_event(log, event)?;
            }
            log.push_str("heartbeat ")?;
            push_number(log, place)?;
            log.push_str("; ")?;
        }
        WatchEnd::Refused(refusal) => log_refusal(log, refusal)?,
    }
    Ok(())
}

// A tuple after the number of its tupleset.
fn log_row(alloc: Global, log: &mut String, number: u64, row: &Tuple) -> Result<(), Refusal> {
    log.push_str(", ")?;
    push_number(log, number)?;
    log.push_str(" ")?;
    let mut text = Vec::new(alloc);
    row.write_to(&mut text)?;
    match std::str::from_utf8(&text) {
        Ok(text) => log.push_str(text)?,
        Err(_) => return Err(Refusal::Damaged),
    }
    Ok(())
}

fn log_rows(alloc: Global, log: &mut String, number: u64, rows: &[Tuple]) -> Result<(), Refusal> {
    for row in rows {
        log_row(alloc, log, number, row)?;
    }
    Ok(())
}

// Tuplesets are numbered from 1 on.
pub(crate) fn log_read(alloc: Global, log: &mut String, end: ReadEnd) -> Result<(), Refusal> {
    match end {
        ReadEnd::Answered(place, done) => {
            log.push_str("at ")?;
            push_number(log, place)?;
            let mut number: u64 = 0;
            for rows in &done {
                number = number.saturating_add(1);
                log_rows(alloc, log, number, rows)?;
            }
            log.push_str("; ")?;
        }
        ReadEnd::Refused(refusal) => log_refusal(log, refusal)?,
    }
    Ok(())
}

pub(crate) fn log_check(log: &mut String, end: CheckEnd) -> Result<(), Refusal> {
    match end {
        CheckEnd::Answered(place, is_member) => {
            log.push_str(if is_member { "yes at " } else { "no at " })?;
            push_number(log, place)?;
            log.push_str("; ")?;
        }
        CheckEnd::Refused(refusal) => log_refusal(log, refusal)?,
    }
    Ok(())
}
