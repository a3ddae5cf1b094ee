// Laws of the numbers and names, each the clause of a function with an empty body.
ghost use Rattle.refusal.specs.Refusals.{OneRefusalAName, OneRefusalANumber};

/// No two refusals have one number.
pub fn a_number_is_of_one_refusal()
    ensures { OneRefusalANumber }
{}

/// No two refusals have one name.
pub fn a_name_is_of_one_refusal()
    ensures { OneRefusalAName }
{}
