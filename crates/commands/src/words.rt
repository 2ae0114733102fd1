//! The words of a command line. The first names the command, and clap reads the others.
ghost use Rattle.std.specs.Prelude.{◌≡◌, ◌⊎◌, true, false, Some, IfOk, IfErr, IsTrue, codes, is_some, map};
ghost use Rattle.std.specs.List.{list_all};
ghost use Rattle.account_book.specs.Fields.{salt_in};
ghost use Rattle.clap.specs.Words.{HasMatchesOf, app_of, fault_of, first_of, found_of, is_simple_and_free, matches_of, rows_of, rule_of};
ghost use Rattle.serve_words.specs.Grammars.{bare};
ghost use Rattle.serve_words.specs.Options.{IsRefusal, is_value};
ghost use Rattle.commands.specs.Commands.{HasPlaces, Reads, account_task, drill_task, name_in, replay_task, serve_task, task, task_of};
ghost use Rattle.commands.specs.Grammars.{Parses, pair_grammar, pair_in, wanted};

use account_book::{LEAST_SALT, MOST_SALT};
use base64::DecodeAllocError;
use base64::engine::general_purpose::STANDARD;
use clap::error::ErrorKind;
use clap::{Arg, ArgAction, ArgMatches};
use jid_core::{JidFault, Part};
use script_play::Status;
use serve_run::Serving;
use serve_words::number::number;
use serve_words::read_serve;
use stanza_tree::{NoMemory, Text};
use std::alloc::{AllocError, Global};

/// A command with its values.
#[derive(Drop)]
pub enum Command {
    /// Plays a script.
    Replay,
    /// Makes the account line of a prepared local part with a salt of 8 to 64 bytes.
    Account { name: Part, salt: Vec<u8> },
    /// Serves clients.
    Serve(Serving),
    /// Runs a drill of `n` rounds, 100,000 at most, by a key.
    Drill { n: u32, key: u64 },
}

/// The command of these words. `Usage` comes exactly where they are none.
pub fn read_words(alloc: Global, words: &[Text]) -> Result<Command, Status>
    ensures task { Reads task (task_of words.now) result }
    ensures places { IfOk result HasPlaces }
{
    let Some((first, rest)) = words.split_first() else {
        return Err(Status::Usage);
    };
    if first.bytes() == b"replay".as_slice() {
        return read_replay(alloc, rest);
    }
    if first.bytes() == b"account".as_slice() {
        return read_account(alloc, rest);
    }
    if first.bytes() == b"serve".as_slice() {
        return read_serving(alloc, rest);
    }
    if first.bytes() == b"drill".as_slice() {
        return read_drill(alloc, rest);
    }
    Err(Status::Usage)
}

/// `serve` with its options.
fn read_serving(alloc: Global, words: &[Text]) -> Result<Command, Status>
    ensures task { Reads task (serve_task words.now) result }
    ensures places { IfOk result HasPlaces }
{
    match read_serve(alloc, words) {
        Ok(serving) => Ok(Command::Serve(serving)),
        Err(status) => Err(status),
    }
}

/// `replay` has no further words.
fn read_replay(alloc: Global, words: &[Text]) -> Result<Command, Status>
    ensures task { Reads task (replay_task words.now) result }
    ensures places { IfOk result HasPlaces }
{
    let texts = read_positionals(alloc, words)?;
    match parse_replay(alloc, texts.as_slice()) {
        Ok(_) => Ok(Command::Replay),
        Err(status) => Err(status),
    }
}

/// `account NAME SALT`.
fn read_account(alloc: Global, words: &[Text]) -> Result<Command, Status>
    ensures task { Reads task (account_task words.now) result }
    ensures places { IfOk result HasPlaces }
{
    let texts = read_positionals(alloc, words)?;
    let (name, salt) = pair_values(alloc, texts.as_slice())?;
    let name = read_name(alloc, name.as_bytes())?;
    let salt = read_salt(alloc, salt.as_bytes())?;
    Ok(Command::Account { name, salt })
}

/// How many rounds a drill may have.
const MOST_ROUNDS: u64 = 100_000;

/// `drill N KEY`.
fn read_drill(alloc: Global, words: &[Text]) -> Result<Command, Status>
    ensures task { Reads task (drill_task words.now) result }
    ensures places { IfOk result HasPlaces }
{
    let texts = read_positionals(alloc, words)?;
    let (n, key) = pair_values(alloc, texts.as_slice())?;
    let Some(n) = number(n, 0, MOST_ROUNDS) else {
        return Err(Status::Usage);
    };
    let Some(key) = number(key, 0, u64::MAX) else {
        return Err(Status::Usage);
    };
    Ok(Command::Drill { n: n as u32, key })
}

/// Whether a word is not empty and begins with no `-`.
fn is_positional(word: &[u8]) -> bool
    ensures { result ≡ is_value word.now }
{
    match word {
        [] => false,
        [first, ..] => *first != b'-',
    }
}

/// The words as texts, if each is positional.
fn read_positionals<'a>(alloc: Global, words: &'a [Text]) -> Result<Vec<&'a str>, Status>
    ensures texts { IfOk result (λ texts. map (λ text. text.now) texts.items ≡ words.entry.now) }
    ensures positional { IfOk result (λ texts. list_all is_value words.entry.now ≡ true) }
    ensures refused { IfErr result (λ s. s ≡ Status.Usage → list_all is_value words.entry.now ≡ false) }
    ensures other { IfErr result (λ s. (s ≡ Status.Usage) ⊎ (s ≡ Status.NoMemory)) }
{
    let mut texts = Vec::new(alloc);
    for word in words {
        if !is_positional(word.bytes()) {
            return Err(Status::Usage);
        }
        match std::str::from_utf8(word.bytes()) {
            Ok(text) => texts.push(text)?,
            Err(_) => unreachable!(),
        }
    }
    Ok(texts)
}

/// A command of clap whose words come without its name, and that has neither help nor a version.
fn bare<'a>(alloc: Global, name: &'a str) -> clap::Command<'a>
    ensures { app_of result ≡ bare name.entry.now }
{
    clap::Command::new(alloc, name)
        .no_binary_name(true)
        .disable_help_flag(true)
        .disable_version_flag(true)
}

/// A positional word that must be there.
fn wanted<'a>(alloc: Global, id: &'a str) -> Arg<'a>
    ensures rule { rule_of result ≡ wanted id.entry.now }
    ensures local { result.global ≡ false }
{
    Arg::new(alloc, id).required(true).action(ArgAction::Set)
}

/// Two such words.
fn pair_grammar<'a>(alloc: Global) -> Result<clap::Command<'a>, AllocError>
    ensures { IfOk result (λ command. app_of command ≡ pair_grammar) }
{
    let first = wanted(alloc, "FIRST");
    let second = wanted(alloc, "SECOND");
    bare(alloc, "pair").arg(first)?.arg(second)
}

/// What clap makes of the words.
fn parse<'a>(command: clap::Command<'a>, words: &'a [&'a str]) -> Result<ArgMatches<'a>, Status>
    ensures matches { IfOk result (HasMatchesOf (app_of command.entry) (map (λ word. word.now) words.entry.now)) }
    ensures fault { is_simple_and_free (app_of command.entry) ≡ true
        → Parses (fault_of (app_of command.entry) (map (λ word. word.now) words.entry.now)) result }
{
    match command.try_get_matches_from(words) {
        Ok(matches) => Ok(matches),
        Err(error) => match error.kind() {
            ErrorKind::OutOfMemory => Err(Status::NoMemory),
            _ => Err(Status::Usage),
        },
    }
}

/// What clap makes of the words of `replay`.
fn parse_replay<'a>(alloc: Global, words: &'a [&'a str]) -> Result<ArgMatches<'a>, Status>
    ensures { Parses (fault_of (bare (codes "replay")) (map (λ word. word.now) words.entry.now)) result }
{
    parse(bare(alloc, "replay"), words)
}

/// What clap makes of the words of a command that has two.
fn parse_pair<'a>(alloc: Global, words: &'a [&'a str]) -> Result<ArgMatches<'a>, Status>
    ensures matches { IfOk result (λ matches. rows_of (found_of matches) ≡ matches_of pair_grammar (map (λ word. word.now) words.entry.now)) }
    ensures fault { Parses (fault_of pair_grammar (map (λ word. word.now) words.entry.now)) result }
{
    parse(pair_grammar(alloc)?, words)
}

/// The value of a word that must be there.
fn value<'a>(matches: &ArgMatches<'a>, id: &str) -> &'a str
    requires { IsTrue (is_some (first_of id.now (rows_of (found_of matches.now)))) }
    ensures { first_of id.now (rows_of (found_of matches.now)) ≡ Some result.now }
{
    match matches.get_str(id) {
        Some(value) => value,
        None => unreachable!(),
    }
}

/// The first word and the second, of a command that has two.
fn pair_values<'a>(alloc: Global, words: &'a [&'a str]) -> Result<(&'a str, &'a str), Status>
    requires { list_all is_value (map (λ word. word.now) words.now) ≡ true }
    ensures { Reads (λ pair. (pair.0.now, pair.1.now)) (pair_in (map (λ word. word.now) words.entry.now)) result }
{
    let matches = match parse_pair(alloc, words) {
        Ok(matches) => matches,
        Err(status) => return Err(status),
    };
    let first = value(&matches, "FIRST");
    let second = value(&matches, "SECOND");
    Ok((first, second))
}

/// A local part, which is prepared.
fn read_name(alloc: Global, word: &[u8]) -> Result<Part, Status>
    ensures { Reads (λ name. name) (name_in word.now) result }
{
    match Part::local(alloc, word) {
        Ok(name) => Ok(name),
        Err(JidFault::NoMemory) => Err(Status::NoMemory),
        Err(_) => Err(Status::Usage),
    }
}

/// Base64 of 8 to 64 bytes.
#[tactic(auto, unfolding(account_book::specs::Fields::bytes_in))]
fn read_salt(alloc: Global, word: &[u8]) -> Result<Vec<u8>, Status>
    ensures { Reads (λ salt. salt.items) (salt_in word.now) result }
{
    let salt = match STANDARD.decode(alloc, word) {
        Ok(salt) => salt,
        Err(DecodeAllocError::OutOfMemory) => return Err(Status::NoMemory),
        Err(DecodeAllocError::DecodeError(_)) => return Err(Status::Usage),
    };
    if LEAST_SALT <= salt.len() && salt.len() <= MOST_SALT {
        Ok(salt)
    } else {
        Err(Status::Usage)
    }
}
