// Laws of the lines, each the clause of a function with an empty body.
ghost use Rattle.json_lines.specs.Laws.{NoneIsSpelledAndRefused, OneCauseALine};

/// No line that spells a request has a cause to be refused, except lack of memory.
pub fn no_line_is_spelled_and_refused()
    ensures { NoneIsSpelledAndRefused }
{}

/// No line has two causes to be refused, apart from lack of memory: so the one that it has is the first.
pub fn a_line_has_one_cause()
    ensures { OneCauseALine }
{}
