// Why a text is no tuple, tupleset or name.
use std::fmt;

const MAX_NAME: usize = 64;

const MAX_ID: usize = 128;

/// Why a text is no tuple, tupleset or name: the first of its parts that is none, and what is wrong with it.
#[derive(Clone, Copy)]
pub struct Why<'a> {
    part: &'static str,
    text: &'a str,
    flaw: Flaw,
}

#[derive(Clone, Copy)]
enum Flaw {
    /// It has not this mark; what it would be.
    Lacks(char, &'static str),
    /// It is a user with a colon and no hash.
    HalfUserset,
    Empty,
    /// It has more bytes than these.
    Long(usize),
    /// It has this character; what it may have.
    Has(char, &'static str),
}

const NAME: &str = "a name has a-z, 0-9 and _";

const ID: &str = "an id has printable ASCII but no space, #, @, : or +";

fn flawed<'a>(part: &'static str, text: &'a str, flaw: Flaw) -> Option<Why<'a>> {
    Some(Why { part, text, flaw })
}

/// Why the text is no tuple.
pub fn why_no_tuple<'a>(text: &'a str) -> Option<Why<'a>> {
    let Some((userset, user)) = text.split_once('@') else {
        return flawed(
            "tuple",
            text,
            Flaw::Lacks('@', "a tuple is namespace:id#relation@user"),
        );
    };
    let found = why_no_userset(userset);
    if found.is_some() {
        return found;
    }
    why_no_user(user)
}

/// Why the text is no tupleset.
pub fn why_no_tupleset<'a>(text: &'a str) -> Option<Why<'a>> {
    let Some((front, user)) = text.split_once('@') else {
        return why_no_part(text);
    };
    if front.contains(':') {
        return why_no_tuple(text);
    }
    let found = why_no_names(front);
    if found.is_some() {
        return found;
    }
    why_no_user(user)
}

/// Why the text is no namespace or relation.
pub fn why_no_name<'a>(part: &'static str, text: &'a str) -> Option<Why<'a>> {
    if text.is_empty() {
        return flawed(part, text, Flaw::Empty);
    }
    for sign in text.chars() {
        if !is_of_name(sign) {
            return flawed(part, text, Flaw::Has(sign, NAME));
        }
    }
    if text.len() > MAX_NAME {
        return flawed(part, text, Flaw::Long(MAX_NAME));
    }
    None
}

// An object, with a relation or without.
fn why_no_part<'a>(text: &'a str) -> Option<Why<'a>> {
    let Some((object, relation)) = text.split_once('#') else {
        return why_no_object(text);
    };
    let found = why_no_object(object);
    if found.is_some() {
        return found;
    }
    why_no_name("relation", relation)
}

// A namespace, with a relation or without.
fn why_no_names<'a>(text: &'a str) -> Option<Why<'a>> {
    let Some((namespace, relation)) = text.split_once('#') else {
        return why_no_name("namespace", text);
    };
    let found = why_no_name("namespace", namespace);
    if found.is_some() {
        return found;
    }
    why_no_name("relation", relation)
}

fn why_no_userset<'a>(text: &'a str) -> Option<Why<'a>> {
    if !text.contains('#') {
        return flawed(
            "userset",
            text,
            Flaw::Lacks('#', "a userset is namespace:id#relation"),
        );
    }
    why_no_part(text)
}

fn why_no_object<'a>(text: &'a str) -> Option<Why<'a>> {
    let Some((namespace, id)) = text.split_once(':') else {
        return flawed(
            "object",
            text,
            Flaw::Lacks(':', "an object is namespace:id"),
        );
    };
    let found = why_no_name("namespace", namespace);
    if found.is_some() {
        return found;
    }
    why_no_id("id", id)
}

// A user with a colon is a userset.
fn why_no_user<'a>(text: &'a str) -> Option<Why<'a>> {
    if !text.contains(':') {
        return why_no_id("user", text);
    }
    if !text.contains('#') {
        return flawed("user", text, Flaw::HalfUserset);
    }
    why_no_userset(text)
}

fn why_no_id<'a>(part: &'static str, text: &'a str) -> Option<Why<'a>> {
    if text.is_empty() {
        return flawed(part, text, Flaw::Empty);
    }
    for sign in text.chars() {
        if !is_of_id(sign) {
            return flawed(part, text, Flaw::Has(sign, ID));
        }
    }
    if text.len() > MAX_ID {
        return flawed(part, text, Flaw::Long(MAX_ID));
    }
    None
}

fn is_of_name(sign: char) -> bool {
    matches!(sign, 'a'..='z' | '0'..='9' | '_')
}

fn is_of_id(sign: char) -> bool {
    matches!(sign, '!'..='~') && !matches!(sign, '#' | '@' | ':' | '+')
}

/// `the user "user:bob" has a ":" and no "#": a userset is namespace:id#relation`
impl fmt::Display for Why<'_> {
    fn fmt<W: fmt::Write>(&self, f: &mut fmt::Formatter<W>) -> fmt::Result {
        let Why { part, text, flaw } = self;
        match flaw {
            Flaw::Lacks(mark, form) => write!(f, "the {part} {text:?} has no \"{mark}\": {form}"),
            Flaw::HalfUserset => write!(
                f,
                "the {part} {text:?} has a \":\" and no \"#\": a userset is namespace:id#relation"
            ),
            Flaw::Empty => write!(f, "the {part} is empty"),
            Flaw::Long(most) => write!(f, "the {part} {text:?} has more than {most} bytes"),
            Flaw::Has(sign, form) => write!(f, "the {part} {text:?} has {sign:?}: {form}"),
        }
    }
}
