// The status that says what a check was answered.
ghost use Rattle.std.specs.Prelude.{◌≡◌, ◌≤◌, ◌↔◌, Some, None, false, true};

use crate::answer::Answered;

/// The status if it isn't known whether the user is a member.
pub(crate) const UNTOLD: u8 = 2;

/// The status that says what a check was answered: 0 for a member, 1 for none, and 2 if it was refused.
pub fn check_status(answered: &Answered) -> u8
    ensures member { (result ≡ 0) ↔ ((answered.now.refusal ≡ None) × (answered.now.member ≡ Some true)) }
    ensures none { (result ≡ 1) ↔ ((answered.now.refusal ≡ None) × (answered.now.member ≡ Some false)) }
    ensures other { result ≤ 2 }
{
    if answered.refusal.is_some() {
        return UNTOLD;
    }
    match answered.member {
        Some(true) => 0,
        Some(false) => 1,
        None => UNTOLD,
    }
}
