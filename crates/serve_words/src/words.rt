//! What the words of `serve` ask for.

ghost use Rattle.std.specs.Prelude.{◌≡◌, ◌<◌, ◌≤◌, ◌*◌, ◌++◌, None, Some, IfOk, IfErr, map, string_bytes};
ghost use Rattle.std.specs.Option.{option_map};
ghost use Rattle.serve_words.specs.Grammars.{said_by, said_of};
ghost use Rattle.account_book.specs.Fields.{on};
ghost use Rattle.serve_words.specs.Options.{IsRefusal, domain, found_text, links_of, only, options, said_with, set_of, sole, spelled, value_of};
ghost use Rattle.serve_words.specs.Options.{values_of, wanted, wanted_by, wanted_in};

use crate::grammar::{parse, value};
use crate::limits::{MOST_SESSIONS, MOST_WORKERS, links_by, most_links, most_places};
use crate::number::number;
use crate::option::{Given, Met, Name, default, is_same, meet, spelled};
use clap::ArgMatches;
use jid_core::{Jid, JidFault};
use script_play::Status;
use serve_run::Serving;
use stanza_tree::Text;
use std::alloc::{AllocError, Global};

/// The most bytes of a domain: with `rooms.` before it, it still is one (RFC 7622, 3.2).
const MOST_DOMAIN: usize = 1_017;

/// The text of a word.
fn text_of(word: &Text) -> &str
    ensures { result.now ≡ word.now }
{
    match std::str::from_utf8(word.bytes()) {
        Ok(text) => text,
        Err(_) => unreachable!(),
    }
}

/// The options of the words, in their order.
fn options(alloc: Global, words: &[Text]) -> Result<Vec<Given<'_>>, Status>
    ensures found { IfOk result (λ given. options None words.now ≡ Some (map set_of given.items)) }
    ensures refused { IfErr result (IsRefusal (options None words.now)) }
{
    let mut given = Vec::new(alloc);
    let mut waits = None;
    for word in words {
        match meet(waits, text_of(word)) {
            Met::Whole(one) => {
                given.push(one)?;
                waits = None;
            }
            Met::Waits(name) => waits = Some(name),
            Met::Neither => return Err(Status::Usage),
        }
    }
    match waits {
        Some(_) => Err(Status::Usage),
        None => Ok(given),
    }
}

/// The value that is given of an option, if one is; none where several are.
fn sole<'a>(given: &[Given<'a>], name: Name) -> Option<Option<&'a str>>
    ensures { option_map found_text result ≡ sole (values_of name (map set_of given.now)) }
{
    let mut found = None;
    for one in given {
        if is_same(one.name, name) {
            if found.is_some() {
                return None;
            }
            found = Some(one.value);
        }
    }
    Some(found)
}

/// The only value of an option, or what stands where there is none.
#[tactic(auto, using(crate::proofs::OptionLemmas::only_some, crate::proofs::OptionLemmas::only_none, crate::proofs::OptionLemmas::only_many))]
fn only<'a>(given: &[Given<'a>], name: Name, default: &'a str) -> Option<&'a str>
    ensures { option_map (λ value. value.now) result ≡ only default.now (values_of name (map set_of given.now)) }
{
    match sole(given, name) {
        Some(Some(value)) => Some(value),
        Some(None) => Some(default),
        None => None,
    }
}

/// The value of an option.
fn value_of<'a>(given: &[Given<'a>], name: Name) -> Option<&'a str>
    ensures { option_map (λ value. value.now) result ≡ value_of (map set_of given.now) name }
{
    only(given, name, default(name))
}

/// An option with its value as one word.
fn word_of(alloc: Global, name: Name, value: &str) -> Result<String, AllocError>
    ensures { IfOk result (λ word. string_bytes word ≡ spelled name ++ value.now) }
{
    let mut word = String::from_str(alloc, spelled(name))?;
    word.push_str(value)?;
    Ok(word)
}

/// A domain as it is prepared, alone.
fn domain_of(alloc: Global, text: &[u8]) -> Result<Jid, Status>
    ensures found { IfOk result (λ jid. domain text.now ≡ Some jid) }
    ensures refused { IfErr result (IsRefusal (domain text.now)) }
{
    if text.len() > MOST_DOMAIN {
        return Err(Status::Usage);
    }
    match Jid::read(alloc, text) {
        Ok(jid) => {
            if jid.local.is_none() && jid.resource.is_none() && jid.domain.bytes() == text {
                Ok(jid)
            } else {
                Err(Status::Usage)
            }
        }
        Err(JidFault::NoMemory) => Err(Status::NoMemory),
        Err(_) => Err(Status::Usage),
    }
}

/// The greatest port (RFC 9293, 3.1).
const MOST_PORT: u64 = 65_535;

/// How many connections a worker may be told to serve in all: more is for ever, which is what it does where it isn't told.
const MOST_CONNECTIONS: u64 = 1_000_000;

/// What is said of each option.
#[derive(Clone, Copy)]
struct Texts<'a> {
    domain: &'a str,
    port: &'a str,
    workers: &'a str,
    links: &'a str,
    connections: &'a str,
    quiet: &'a str,
    sessions: &'a str,
}

/// The values that clap read.
fn said<'a>(matches: &ArgMatches<'a>) -> Option<Texts<'a>>
    ensures { option_map said_of result ≡ said_by matches.now }
{
    Some(Texts {
        domain: value(matches, "domain")?,
        port: value(matches, "port")?,
        workers: value(matches, "workers")?,
        links: value(matches, "links")?,
        connections: value(matches, "connections")?,
        quiet: value(matches, "quiet")?,
        sessions: value(matches, "sessions")?,
    })
}

/// What the values ask for.
fn serving_of(alloc: Global, said: &Texts<'_>) -> Result<Serving, Status>
    ensures found { IfOk result (λ serving. wanted_by (said_of said.now) ≡ Some serving) }
    ensures some { IfOk result (λ serving. 0 < serving.workers) }
    ensures each { IfOk result (λ serving. 0 < serving.links) }
    ensures few { IfOk result (λ serving. serving.workers * serving.links ≤ 16384) }
    ensures refused { IfErr result (IsRefusal (wanted_by (said_of said.now))) }
{
    let domain = domain_of(alloc, said.domain.as_bytes())?;
    let Some(port) = number(said.port, 1, MOST_PORT) else {
        return Err(Status::Usage);
    };
    let Some(workers) = number(said.workers, 1, MOST_WORKERS) else {
        return Err(Status::Usage);
    };
    let Some(sessions) = number(said.sessions, 1, MOST_SESSIONS) else {
        return Err(Status::Usage);
    };
    let Some(links) = number(said.links, 1, most_links(sessions)) else {
        return Err(Status::Usage);
    };
    let Some(connections) = number(said.connections, 0, MOST_CONNECTIONS) else {
        return Err(Status::Usage);
    };
    if workers * links > most_places(sessions) {
        return Err(Status::Usage);
    }
    Ok(Serving {
        domain,
        port: port as u16,
        workers: workers as u32,
        links: links as u32,
        connections,
        quiet: said.quiet == "yes",
        sessions: sessions as u32,
    })
}

/// What clap makes of the texts, each in one word with its option.
fn read_said(alloc: Global, given: &Texts<'_>) -> Result<Serving, Status>
    ensures found { IfOk result (λ serving. wanted_by (said_of given.now) ≡ Some serving) }
    ensures some { IfOk result (λ serving. 0 < serving.workers) }
    ensures each { IfOk result (λ serving. 0 < serving.links) }
    ensures few { IfOk result (λ serving. serving.workers * serving.links ≤ 16384) }
    ensures refused { IfErr result (IsRefusal (wanted_by (said_of given.now))) }
{
    let words = [
        word_of(alloc, Name::Domain, given.domain)?,
        word_of(alloc, Name::Port, given.port)?,
        word_of(alloc, Name::Workers, given.workers)?,
        word_of(alloc, Name::Links, given.links)?,
        word_of(alloc, Name::Connections, given.connections)?,
        word_of(alloc, Name::Quiet, given.quiet)?,
        word_of(alloc, Name::Sessions, given.sessions)?,
    ];
    match parse(alloc, words.as_slice()) {
        Ok(matches) => read_matches(alloc, &matches),
        Err(status) => Err(status),
    }
}

/// What the values ask for that clap read.
fn read_matches(alloc: Global, matches: &ArgMatches<'_>) -> Result<Serving, Status>
    ensures found { IfOk result (λ serving. on (said_by matches.now) wanted_by ≡ Some serving) }
    ensures some { IfOk result (λ serving. 0 < serving.workers) }
    ensures each { IfOk result (λ serving. 0 < serving.links) }
    ensures few { IfOk result (λ serving. serving.workers * serving.links ≤ 16384) }
    ensures refused { IfErr result (IsRefusal (on (said_by matches.now) wanted_by)) }
{
    match said(matches) {
        Some(said) => serving_of(alloc, &said),
        None => Err(Status::Usage),
    }
}

/// The texts that stand for the options beside this one for `--links`.
fn texts_of<'a>(given: &[Given<'a>], links: &'a str) -> Option<Texts<'a>>
    ensures { option_map said_of result ≡ said_with (value_of (map set_of given.now) Name.Domain) (value_of (map set_of given.now) Name.Port)
        (value_of (map set_of given.now) Name.Workers) (Some links.now) (value_of (map set_of given.now) Name.Connections)
        (value_of (map set_of given.now) Name.Quiet) (value_of (map set_of given.now) Name.Sessions) }
{
    Some(Texts {
        domain: value_of(given, Name::Domain)?,
        port: value_of(given, Name::Port)?,
        workers: value_of(given, Name::Workers)?,
        links,
        connections: value_of(given, Name::Connections)?,
        quiet: value_of(given, Name::Quiet)?,
        sessions: value_of(given, Name::Sessions)?,
    })
}

/// What the options ask for, where so many links stand for `--links`.
fn read_with(alloc: Global, given: &[Given<'_>], links: &str) -> Result<Serving, Status>
    requires { links_of (map set_of given.now) ≡ Some links.now }
    ensures found { IfOk result (λ serving. wanted_in (map set_of given.now) ≡ Some serving) }
    ensures some { IfOk result (λ serving. 0 < serving.workers) }
    ensures each { IfOk result (λ serving. 0 < serving.links) }
    ensures few { IfOk result (λ serving. serving.workers * serving.links ≤ 16384) }
    ensures refused { IfErr result (IsRefusal (wanted_in (map set_of given.now))) }
{
    match texts_of(given, links) {
        Some(texts) => read_said(alloc, &texts),
        None => Err(Status::Usage),
    }
}

/// What the options ask for: clap reads their values.
#[tactic(auto, using(crate::proofs::WantedLemmas::without_workers, crate::proofs::WantedLemmas::without_sessions, crate::proofs::WantedLemmas::without_links, crate::proofs::WantedLemmas::given_links, crate::proofs::WantedLemmas::usual_text))]
fn read_options(alloc: Global, given: &[Given<'_>]) -> Result<Serving, Status>
    ensures found { IfOk result (λ serving. wanted_in (map set_of given.now) ≡ Some serving) }
    ensures some { IfOk result (λ serving. 0 < serving.workers) }
    ensures each { IfOk result (λ serving. 0 < serving.links) }
    ensures few { IfOk result (λ serving. serving.workers * serving.links ≤ 16384) }
    ensures refused { IfErr result (IsRefusal (wanted_in (map set_of given.now))) }
{
    let Some(workers) = value_of(given, Name::Workers) else {
        return Err(Status::Usage);
    };
    let Some(sessions) = value_of(given, Name::Sessions) else {
        return Err(Status::Usage);
    };
    match sole(given, Name::Links) {
        Some(Some(links)) => read_with(alloc, given, links),
        Some(None) => {
            let usual = links_by(alloc, workers, sessions)?;
            read_with(alloc, given, usual.as_str())
        }
        None => Err(Status::Usage),
    }
}

/// What the words after `serve` ask for. `Usage` comes exactly where they are none.
pub fn read_serve(alloc: Global, words: &[Text]) -> Result<Serving, Status>
    ensures found { IfOk result (λ serving. wanted words.now ≡ Some serving) }
    ensures some { IfOk result (λ serving. 0 < serving.workers) }
    ensures each { IfOk result (λ serving. 0 < serving.links) }
    ensures few { IfOk result (λ serving. serving.workers * serving.links ≤ 16384) }
    ensures refused { IfErr result (IsRefusal (wanted words.now)) }
{
    let given = options(alloc, words)?;
    read_options(alloc, given.as_slice())
}
