// Laws of the texts, each the clause of a function with an empty body.
ghost use Rattle.zookie.specs.Zookies.{OneZookieAText};

/// Two stores and places with one text are the same.
pub fn a_text_is_of_one_zookie()
    ensures { OneZookieAText }
{}
