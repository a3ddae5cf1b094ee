// The names of calls.
ghost use Rattle.std.specs.Prelude.{◌≡◌, All, MatchOption};
ghost use Rattle.names.specs.declared.call_name.CallName.{CallName as AnyCall};
ghost use Rattle.names.specs.Names.{call_text};

/// The name of a call, which is the same whatever is handed in. A flush is called `flush` at each node, as a checkpoint is `checkpoint`, and both reads of a shard are called `read`.
#[derive(Clone, Copy, Debug, PartialEq, Eq)]
pub enum CallName {
    Begin,
    Heads,
    Learned,
    Batch,
    Learn,
    StagePrepare,
    Flush,
    Vote,
    Decide,
    Outcome,
    Abort,
    DropWrite,
    Inquire,
    InDoubt,
    Read,
    Settle,
    Raise,
    Collect,
    Checkpoint,
}

// Each of them once.
const ALL: [CallName; 19] = [
    CallName::Begin,
    CallName::Heads,
    CallName::Learned,
    CallName::Batch,
    CallName::Learn,
    CallName::StagePrepare,
    CallName::Flush,
    CallName::Vote,
    CallName::Decide,
    CallName::Outcome,
    CallName::Abort,
    CallName::DropWrite,
    CallName::Inquire,
    CallName::InDoubt,
    CallName::Read,
    CallName::Settle,
    CallName::Raise,
    CallName::Collect,
    CallName::Checkpoint,
];

impl CallName {
    /// The call with this text.
    pub fn parse(text: &[u8]) -> Option<CallName>
        ensures { MatchOption result ((call : AnyCall) → text.now ≡ call_text call → ⊥) (λ call. text.now ≡ call_text call) }
    {
        find(&ALL, text)
    }

    /// Its text, as it is written in a script and printed.
    pub fn name(self) -> &'static str
        ensures { result.now ≡ call_text self }
    {
        match self {
            CallName::Begin => "begin",
            CallName::Heads => "heads",
            CallName::Learned => "learned",
            CallName::Batch => "batch",
            CallName::Learn => "learn",
            CallName::StagePrepare => "stage_prepare",
            CallName::Flush => "flush",
            CallName::Vote => "vote",
            CallName::Decide => "decide",
            CallName::Outcome => "outcome",
            CallName::Abort => "abort",
            CallName::DropWrite => "drop_write",
            CallName::Inquire => "inquire",
            CallName::InDoubt => "in_doubt",
            CallName::Read => "read",
            CallName::Settle => "settle",
            CallName::Raise => "raise",
            CallName::Collect => "collect",
            CallName::Checkpoint => "checkpoint",
        }
    }
}

// The one of these calls that has this text.
fn find(calls: &[CallName], text: &[u8]) -> Option<CallName>
    ensures { MatchOption result (All (λ call. text.now ≡ call_text call → ⊥) calls.now) (λ call. text.now ≡ call_text call) }
{
    for call in calls {
        if call.name().as_bytes() == text {
            return Some(*call);
        }
    }
    None
}
