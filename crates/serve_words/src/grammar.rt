//! What clap reads of the options.

ghost use Rattle.std.specs.Prelude.{◌≡◌, IfErr, IfOk, map, string_bytes, true};
ghost use Rattle.std.specs.Option.{option_map};
ghost use Rattle.clap.specs.Words.{app_of, found_of, matches_of, rows_of, takes, with_rule};
ghost use Rattle.serve_words.specs.Grammars.{first_grammar, grammar, option, value_in};

use clap::error::ErrorKind;
use clap::{Arg, ArgAction, ArgMatches, Command};
use script_play::Status;
use std::alloc::{AllocError, Global};

/// The command with an option more, which has one value.
fn with_option<'a>(
    alloc: Global,
    command: Command<'a>,
    name: &'a str,
) -> Result<Command<'a>, AllocError>
    ensures { IfOk result (λ r. app_of r ≡ with_rule (app_of command.entry) (option name.entry.now)) }
{
    command.arg(Arg::new(alloc, name).long(name).action(ArgAction::Set))
}

/// Where the server stands, and how many workers it has. The words come without a name; there is neither help nor a version.
fn first_grammar<'a>(alloc: Global) -> Result<Command<'a>, AllocError>
    ensures { IfOk result (λ command. app_of command ≡ first_grammar) }
{
    let command = Command::new(alloc, "serve")
        .no_binary_name(true)
        .disable_help_flag(true)
        .disable_version_flag(true);
    let command = with_option(alloc, command, "domain")?;
    let command = with_option(alloc, command, "port")?;
    with_option(alloc, command, "workers")
}

/// The options of `serve`.
fn grammar<'a>(alloc: Global) -> Result<Command<'a>, AllocError>
    ensures { IfOk result (λ command. app_of command ≡ grammar) }
{
    let command = first_grammar(alloc)?;
    let command = with_option(alloc, command, "links")?;
    let command = with_option(alloc, command, "connections")?;
    let command = with_option(alloc, command, "quiet")?;
    with_option(alloc, command, "sessions")
}

/// What clap makes of the words.
pub(crate) fn parse<'a>(alloc: Global, words: &'a [String]) -> Result<ArgMatches<'a>, Status>
    ensures matches { IfOk result (λ matches. rows_of (found_of matches) ≡ matches_of grammar (map string_bytes words.entry.now)) }
    ensures taken { IfErr result (λ s. takes grammar (map string_bytes words.entry.now) ≡ true → s ≡ Status.NoMemory) }
{
    match grammar(alloc)?.try_get_matches_from(words) {
        Ok(matches) => Ok(matches),
        Err(error) => match error.kind() {
            ErrorKind::OutOfMemory => Err(Status::NoMemory),
            _ => Err(Status::Usage),
        },
    }
}

/// The value that clap read of an option.
pub(crate) fn value<'a>(matches: &ArgMatches<'a>, name: &str) -> Option<&'a str>
    ensures { option_map (λ text. text.now) result ≡ value_in matches.now name.now }
{
    matches.get_str(name)
}
