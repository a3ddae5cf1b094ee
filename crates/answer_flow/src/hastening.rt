// A shard that has most likely learned so far is read at once.
ghost use Rattle.std.specs.Prelude.{◌≡◌, ◌≢◌, ◌⊎◌};
ghost use Rattle.calls.specs.Flows.{IfNext};
ghost use Rattle.names.specs.declared.call_name.CallName.TheVariants as names;
ghost use Rattle.answer_flow.specs.Checking.{HastensCheck};
ghost use Rattle.answer_flow.specs.CheckViews.{IsAsked, IsReadyOf as IsCheckReadyOf, name_ready as name_of_check, seen_after, seen_of as seen_of_check, view_of, view_ready as view_of_check};
ghost use Rattle.answer_flow.specs.Reading.{HastensRead};
ghost use Rattle.answer_flow.specs.ReadViews.{IsReadyOf as IsReadReadyOf, name_ready as name_of_read, seen_of as seen_of_read, view_ready as view_of_read};

use crate::check_flow::CheckFlow;
use crate::check_phase::{self, AskedCheck, CheckDone, CheckEnd};
use crate::checking::ask;
use crate::read_flow::ReadFlow;
use crate::read_phase;
use calls::Progress;
use names::CallName;

// If a shard is to be brought up it is read.
fn read_for_check(
    asked: &AskedCheck,
    ready: check_phase::Ready,
) -> Progress<check_phase::Ready, CheckEnd>
    requires { IsCheckReadyOf asked.now.shards asked.now.user ready }
    ensures hastens { HastensCheck (view_of_check ready) (view_of result) }
    ensures reads { name_of_check ready ≡ names.Learned → IfNext result (λ later. name_of_check later ≡ names.Read) }
    ensures kept { IfNext result (IsCheckReadyOf asked.now.shards asked.now.user) }
{
    match ready {
        check_phase::Ready::CatchUp(place, walk, catch_up) => {
            drop(catch_up);
            ask(asked, place, walk)
        }
        other => Progress::Next(other),
    }
}

fn read(ready: read_phase::Ready) -> read_phase::Ready
    ensures hastens { HastensRead (view_of_read ready) (view_of_read result) }
    ensures reads { name_of_read ready ≡ names.Learned → name_of_read result ≡ names.Read }
    ensures kept { (shards : _) (sets : _) → IsReadReadyOf shards sets ready → IsReadReadyOf shards sets result }
{
    match ready {
        read_phase::Ready::CatchUp(gathered, set, catch_up) => {
            drop(catch_up);
            read_phase::Ready::Read(gathered, set)
        }
        other => other,
    }
}

impl CheckFlow {
    /// If a shard is to be asked next how far it has learned, it is read at once: one that has not learned so far answers that too. If memory is
    /// refused the check ends with `NoMemory`. If another call is next, nothing is changed.
    pub fn read_at_once(self) -> Progress<CheckFlow, CheckDone>
        ensures asked { IsAsked self.shards self.fresh self.user result }
        ensures hastens { HastensCheck (seen_of_check self) (seen_after result) }
        ensures reads { self.next_name ≡ names.Learned → IfNext result (λ f. f.next_name ≡ names.Read) }
        ensures others { self.next_name ≢ names.Learned → result ≡ Progress.Next self }
    {
        if self.ready.name() != CallName::Learned {
            return Progress::Next(self);
        }
        let CheckFlow { asked, ready } = self;
        match read_for_check(&asked, ready) {
            Progress::Next(ready) => Progress::Next(CheckFlow { asked, ready }),
            Progress::Ended(end) => Progress::Ended(CheckDone {
                end,
                user: asked.user,
            }),
        }
    }
}

impl ReadFlow {
    /// If a shard is to be asked next how far it has learned, it reads at once: one that has not learned so far answers that too. If another call is
    /// next, nothing is changed.
    pub fn read_at_once(self) -> ReadFlow
        ensures asked { result ≡ record self { next = result.next; holds = result.holds; next_name = result.next_name } }
        ensures hastens { HastensRead (seen_of_read self) (seen_of_read result) }
        ensures reads { self.next_name ≡ names.Learned → result.next_name ≡ names.Read }
        ensures others { self.next_name ≢ names.Learned → result ≡ self }
    {
        if self.ready.name() != CallName::Learned {
            return self;
        }
        let ReadFlow { asked, ready } = self;
        let ready = read(ready);
        ReadFlow { asked, ready }
    }
}
