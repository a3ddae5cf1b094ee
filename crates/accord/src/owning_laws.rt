// Laws of who began which write, each the clause of a function with an empty body.
ghost use Rattle.accord.specs.Owning.{OwnersDecide, UndecidedIsUnlisted};

/// A write that its caller began and did not decide is not listed.
pub fn undecided_is_unlisted()
    ensures { UndecidedIsUnlisted }
{}

/// Whoever began a write gives its intent up in the step that decides it. The list goes on to have only writes that somebody began.
pub fn owners_decide()
    ensures { OwnersDecide }
{}
