// The numbers and names of the refusals.
use refusal::Refusal;
use std::alloc::Global;

/// Whether it is printed as that.
fn is_shown_as(alloc: Global, refusal: Refusal, want: &str) -> bool {
    match refusal.to_string(alloc) {
        Ok(text) => text.as_str() == want,
        Err(_) => false,
    }
}

/// Each refusal, its number, its name, and how it is printed.
const REFUSALS: &[(Refusal, u8, &str, &str)] = &[
    (Refusal::BadRequest, 1, "BadRequest", "1 BadRequest"),
    (Refusal::BadTuple, 2, "BadTuple", "2 BadTuple"),
    (Refusal::TooLarge, 3, "TooLarge", "3 TooLarge"),
    (Refusal::Repeated, 4, "Repeated", "4 Repeated"),
    (Refusal::BadZookie, 5, "BadZookie", "5 BadZookie"),
    (Refusal::WrongStore, 6, "WrongStore", "6 WrongStore"),
    (Refusal::Future, 7, "Future", "7 Future"),
    (Refusal::Collected, 8, "Collected", "8 Collected"),
    (Refusal::Precondition, 9, "Precondition", "9 Precondition"),
    (Refusal::Busy, 10, "Busy", "10 Busy"),
    (Refusal::Aborted, 11, "Aborted", "11 Aborted"),
    (Refusal::Unsure, 12, "Unsure", "12 Unsure"),
    (Refusal::Down, 13, "Down", "13 Down"),
    (Refusal::NoMemory, 14, "NoMemory", "14 NoMemory"),
    (Refusal::Full, 15, "Full", "15 Full"),
    (Refusal::Damaged, 16, "Damaged", "16 Damaged"),
];

#[test]
fn a_refusal_has_one_number_and_one_name(rt: HostRuntime) {
    for &(refusal, number, name, text) in REFUSALS {
        let is_made_of = refusal.number() == number && refusal.name() == name;
        assert!(rt;
            is_made_of && is_shown_as(rt.alloc(), refusal, text),
            "{text}"
        );
    }
}
