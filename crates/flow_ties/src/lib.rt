//! What a flow holds of the list of writes that its caller's pass has seen: words and laws.
//!
//! Keeps: nothing at run time; each law is the contract of a function with an empty body.
//! Callers rely on: if each reply tells what is of the list, what a flow answers is of the list, and it is refused only for a reason.
//!
//! Start at `specs/Telling.antt`, what a reply tells of the list, and `specs/Reads.antt`.
#![tactic(auto)]

mod care_laws;
mod check_laws;
mod read_laws;
mod watch_laws;
mod write_laws;

pub use care_laws::{cares_begin, cares_go_on, cares_hand_over_what_is_seen, cares_stay_seen};
pub use check_laws::{
    checks_answer_what_is_seen, checks_at_rest_have_reason, checks_begin, checks_begin_at_places,
    checks_hand_over_what_is_seen, checks_refuse_for_a_reason, checks_stay_seen,
};
pub use read_laws::{
    reads_answer_what_is_seen, reads_at_rest_have_reason, reads_begin, reads_begin_at_places,
    reads_begin_for_a_reason, reads_hand_over_what_is_seen, reads_refuse_for_a_reason,
    reads_stay_seen,
};
pub use watch_laws::{
    watches_at_rest_have_reason, watches_begin, watches_list_what_is_seen,
    watches_refuse_for_a_reason, watches_stay_seen,
};
pub use write_laws::{
    Links, writes_are_relinked, writes_begin, writes_begin_untold, writes_hand_over_what_is_seen,
    writes_refuse_as_told, writes_stay_seen, writes_tell_what_stands,
};
