// Laws of the texts, each the clause of a function with an empty body.
ghost use Rattle.tuples.specs.Laws.{OneTextATuple, OneTupleAText, OneTuplesetAText};

/// Two tuples with one text are the same.
pub fn a_text_is_of_one_tuple()
    ensures { OneTupleAText }
{}

/// Two texts of one tuple are the same.
pub fn a_tuple_has_one_text()
    ensures { OneTextATuple }
{}

/// Two tuplesets with one text are the same.
pub fn a_text_is_of_one_tupleset()
    ensures { OneTuplesetAText }
{}
