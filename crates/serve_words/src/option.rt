//! The options, and what of each stands in the words.

ghost use Rattle.std.specs.Prelude.{◌≡◌, None, false};
ghost use Rattle.std.specs.Option.{option_map};
ghost use Rattle.jid_core.specs.Cuts.{after, before};
ghost use Rattle.serve_words.specs.Options.{Finds, Meets, default, is_quiet, is_same, is_value, joined, named, spelled};

/// An option of `serve`.
#[derive(Clone, Copy)]
pub enum Name {
    Domain,
    Port,
    Workers,
    Links,
    Connections,
    Quiet,
    Sessions,
}

/// An option with its value.
#[derive(Clone, Copy)]
pub struct Given<'a> {
    pub name: Name,
    pub value: &'a str,
}

/// The option that a text names.
pub(crate) fn named(text: &str) -> Option<Name>
    ensures { result ≡ named text.now }
{
    if text == "--domain" {
        Some(Name::Domain)
    } else if text == "--port" {
        Some(Name::Port)
    } else if text == "--workers" {
        Some(Name::Workers)
    } else if text == "--links" {
        Some(Name::Links)
    } else if text == "--connections" {
        Some(Name::Connections)
    } else if text == "--sessions" {
        Some(Name::Sessions)
    } else {
        None
    }
}

/// Whether a word is not empty and begins with no `-`.
pub(crate) fn is_value(word: &[u8]) -> bool
    ensures { result ≡ is_value word.now }
{
    match word {
        [] => false,
        [first, ..] => *first != b'-',
    }
}

/// What stands before the first `=` and after it.
fn split(word: &str) -> (&str, Option<&str>)
    ensures before { result.0.now ≡ before 61 word.now }
    ensures after { option_map (λ text. text.now) result.1 ≡ after 61 word.now }
{
    match word.split_once('=') {
        Some((text, value)) => (text, Some(value)),
        None => (word, None),
    }
}

/// The option and its value in a word `--x=V`, where V isn't empty.
pub(crate) fn joined(word: &str) -> Option<Given<'_>>
    ensures { Finds (joined word.now) result }
{
    let (text, value) = split(word);
    let value = value?;
    if value.is_empty() {
        return None;
    }
    Some(Given {
        name: named(text)?,
        value,
    })
}

/// What a word is after a name that may wait for its value.
#[derive(Clone, Copy)]
pub enum Met<'a> {
    /// An option with its value.
    Whole(Given<'a>),
    /// A name that waits for its value.
    Waits(Name),
    /// Neither.
    Neither,
}

/// What a word is where a name may wait for its value.
pub(crate) fn meet(waits: Option<Name>, word: &str) -> Met<'_>
    ensures { Meets waits word.now result }
{
    match waits {
        Some(name) => {
            if is_value(word.as_bytes()) {
                Met::Whole(Given { name, value: word })
            } else {
                Met::Neither
            }
        }
        None => meet_first(word),
    }
}

/// `--quiet`, or what a word is that isn't.
fn meet_first(word: &str) -> Met<'_>
    ensures { Meets None word.now result }
{
    if word == "--quiet" {
        return Met::Whole(Given {
            name: Name::Quiet,
            value: "yes",
        });
    }
    meet_named(word)
}

fn meet_named(word: &str) -> Met<'_>
    requires { is_quiet word.now ≡ false }
    ensures { Meets None word.now result }
{
    let (_, value) = split(word);
    if value.is_some() {
        match joined(word) {
            Some(given) => Met::Whole(given),
            None => Met::Neither,
        }
    } else {
        match named(word) {
            Some(name) => Met::Waits(name),
            None => Met::Neither,
        }
    }
}

/// What stands where an option isn't given.
pub(crate) fn default(name: Name) -> &'static str
    ensures { result.now ≡ default name }
{
    match name {
        Name::Domain => "localhost",
        Name::Port => "5222",
        Name::Workers => "4",
        Name::Links => "256",
        Name::Connections => "0",
        Name::Quiet => "no",
        Name::Sessions => "512",
    }
}

/// What stands before the value of an option, where both are one word.
pub(crate) fn spelled(name: Name) -> &'static str
    ensures { result.now ≡ spelled name }
{
    match name {
        Name::Domain => "--domain=",
        Name::Port => "--port=",
        Name::Workers => "--workers=",
        Name::Links => "--links=",
        Name::Connections => "--connections=",
        Name::Quiet => "--quiet=",
        Name::Sessions => "--sessions=",
    }
}

/// Whether both are the same option.
pub(crate) fn is_same(one: Name, other: Name) -> bool
    ensures { result ≡ is_same one other }
{
    match (one, other) {
        (Name::Domain, Name::Domain) => true,
        (Name::Port, Name::Port) => true,
        (Name::Workers, Name::Workers) => true,
        (Name::Links, Name::Links) => true,
        (Name::Connections, Name::Connections) => true,
        (Name::Quiet, Name::Quiet) => true,
        (Name::Sessions, Name::Sessions) => true,
        _ => false,
    }
}
