//! Plays a story: its links are served one after the other, at a hall of one line.
ghost use Rattle.std.specs.Prelude.{◌≡◌, ◌<◌, IfOk, IsTrue, Some, [], length};
ghost use Rattle.jid_core.specs.Preparation.{is_local};
ghost use Rattle.house_core.specs.Houses.{held};
ghost use Rattle.house_model.specs.Histories.{StandsFor};
ghost use Rattle.house_model.specs.States.{State};
ghost use Rattle.hall.specs.Halls.{CameFrom, lines_of};

use crate::lines::{after_word, first_line, front_of, second_word, split_before};
use crate::script::Script;
use crate::shown::Shown;
use account_book::Accounts;
use conn_asks::Ended;
use conn_serve::serve;
use hall::{Hall, Pass};
use house_core::House;
use jid_core::{Jid, Part};
use outside::{MemClock, MemDice, MemLink};
use stanza_tree::{NoMemory, Several};
use std::alloc::Global;
use std::sync::Wait;

/// The most calls of a link, and the most bytes that it hears and says.
const CALLS: usize = 2_097_152;

const BYTES: usize = 2_097_152;

/// How many random bytes there are, all of them zeros.
const DICE: usize = 1_000;

/// How many sendings are answered `Later` before they are taken.
const LATERS: u64 = 64;

/// How many bytes a reading or a sending moves at most, whether each sending is first answered `Later`, up to which of its bytes the first link
/// is heard, and which call of it and of its dice fails, where 0 is none.
#[derive(Clone, Copy)]
pub(crate) struct Trial {
    pub(crate) piece: usize,
    pub(crate) is_later: bool,
    pub(crate) heard: usize,
    pub(crate) link_fails: u64,
    pub(crate) dice_fails: u64,
}

impl Trial {
    /// Nothing fails.
    pub(crate) fn of(piece: usize) -> Trial {
        Trial {
            piece,
            is_later: false,
            heard: usize::MAX,
            link_fails: 0,
            dice_fails: 0,
        }
    }
}

fn domain_of(alloc: Global) -> Result<Jid, NoMemory> {
    match Jid::read(alloc, b"example.org") {
        Ok(domain) => Ok(domain),
        Err(_) => Err(NoMemory),
    }
}

/// The user of a head's line `user NAME`.
fn user_of(alloc: Global, head: &[u8]) -> Result<Part, NoMemory>
    ensures { IfOk result (λ user. IsTrue (is_local user)) }
{
    let (_, rest) = split_before(head, b"user ");
    let (line, _) = first_line(rest);
    match Part::local(alloc, second_word(line)) {
        Ok(user) => Ok(user),
        Err(_) => Err(NoMemory),
    }
}

fn house_of(alloc: Global, head: &[u8]) -> Result<House, NoMemory>
    ensures new { IfOk result (λ h. (o : State) × StandsFor o [] (held h)) }
    ensures lines { IfOk result (λ h. length h.table.lines ≡ 1) }
{
    let domain = domain_of(alloc)?;
    let users = [user_of(alloc, head)?];
    Ok(House::new(alloc, &domain, &users, 1)?)
}

/// A hall round a house, and its only pass.
fn one_pass(alloc: Global, head: &[u8]) -> Result<(Hall, Pass), NoMemory>
    ensures pass { IfOk result (λ r. CameFrom r.0 r.1) }
    ensures lines { IfOk result (λ r. lines_of r.0 ≡ 1) }
{
    let (hall, mut passes) = Hall::start(alloc, house_of(alloc, head)?, 1, 0)?;
    match passes.pop() {
        Some(pass) => Ok((hall, pass)),
        None => Err(NoMemory),
    }
}

fn fails_of(alloc: Global, call: u64) -> Result<Vec<u64>, NoMemory> {
    let mut fails = Vec::new(alloc);
    if call != 0 {
        fails.push(call)?;
    }
    Ok(fails)
}

/// Every other sending, where they are answered `Later`.
fn laters_of(alloc: Global, is_later: bool) -> Result<Vec<u64>, NoMemory> {
    let mut laters = Vec::new(alloc);
    if is_later {
        for at in 0..LATERS {
            laters.push(2 * at + 1)?;
        }
    }
    Ok(laters)
}

fn link_of(alloc: Global, readings: Vec<Several<u8>>, trial: Trial) -> Result<MemLink, NoMemory> {
    let fails = fails_of(alloc, trial.link_fails)?;
    let link = MemLink::new(alloc, readings, trial.piece.max(1), fails, CALLS, BYTES)?;
    Ok(link.later_at(laters_of(alloc, trial.is_later)?))
}

fn dice_of(alloc: Global, fails: u64) -> Result<MemDice, NoMemory> {
    let bytes = Vec::from_array(alloc, [0u8; DICE])?;
    MemDice::new(alloc, bytes, fails_of(alloc, fails)?, DICE)
}

/// Serves a link at a pass.
fn serve_link<W: Wait>(
    rt: &W,
    alloc: Global,
    hall: &Hall,
    pass: &mut Pass,
    accounts: &Accounts,
    moments: Vec<u64>,
    dice_fails: u64,
    link: &mut MemLink,
) -> Result<Ended, NoMemory>
    requires { CameFrom hall.now pass.old }
    ensures { CameFrom hall.now pass.new }
{
    let mut clock = MemClock::new(alloc, moments, 0)?;
    let mut dice = dice_of(alloc, dice_fails)?;
    Ok(serve(rt, alloc, hall, pass, accounts, link, &mut clock, &mut dice))
}

/// Serves the link of a script, and shows what came of it.
fn serve_script<W: Wait>(
    rt: &W,
    alloc: Global,
    hall: &Hall,
    pass: &mut Pass,
    accounts: &Accounts,
    trial: Trial,
    script: Script,
    shown: &mut Shown,
) -> Result<(), NoMemory>
    requires { CameFrom hall.now pass.old }
    ensures { CameFrom hall.now pass.new }
{
    let Script {
        readings,
        moments,
        moment: _,
        front,
    } = script;
    let mut link = link_of(alloc, readings, trial)?;
    let ended = serve_link(
        rt,
        alloc,
        hall,
        pass,
        accounts,
        moments,
        trial.dice_fails,
        &mut link,
    )?;
    shown.add_link(alloc, link.tape(), ended, front)
}

/// Serves a link of a story, whose line is `link` or `link FRONT`.
fn play_link<W: Wait>(
    rt: &W,
    alloc: Global,
    hall: &Hall,
    pass: &mut Pass,
    accounts: &Accounts,
    head: &[u8],
    trial: Trial,
    line: &[u8],
    body: &[u8],
    shown: &mut Shown,
) -> Result<(), NoMemory>
    requires { CameFrom hall.now pass.old }
    ensures { CameFrom hall.now pass.new }
{
    let front = match after_word(line, b"link ") {
        Some(name) => front_of(head, name),
        None => &[],
    };
    let script = Script::read(alloc, front, body, trial.piece.max(1), trial.heard)?;
    serve_script(rt, alloc, hall, pass, accounts, trial, script, shown)
}

/// Serves the links of a story, the first of them at this trial and the others without faults.
fn play_links<W: Wait>(
    rt: &W,
    alloc: Global,
    hall: &Hall,
    pass: &mut Pass,
    accounts: &Accounts,
    head: &[u8],
    trial: Trial,
    story: &[u8],
    shown: &mut Shown,
) -> Result<(), NoMemory>
    requires { CameFrom hall.now pass.old }
    ensures { CameFrom hall.now pass.new }
{
    let mut trial = trial;
    let (_, mut rest) = split_before(story, b"link");
    for _link in 0..story.len() {
        if rest.is_empty() {
            break;
        }
        let (line, after) = first_line(rest);
        let (body, next) = split_before(after, b"link");
        play_link(
            rt, alloc, hall, pass, accounts, head, trial, line, body, shown,
        )?;
        trial = Trial {
            is_later: trial.is_later,
            ..Trial::of(trial.piece)
        };
        rest = next;
    }
    Ok(())
}

/// How many connections came to a house, and how many turns it had.
fn keep_counts(house: &House, shown: &mut Shown) {
    shown.links = house.opened();
    shown.turns = house.turns();
}

/// Closes a hall, and keeps its counts.
fn close(alloc: Global, hall: Hall, pass: Pass, shown: &mut Shown) -> Result<(), NoMemory>
    requires pass { CameFrom hall pass }
    requires lines { lines_of hall ≡ 1 }
{
    let passes = Vec::from_array(alloc, [pass])?;
    keep_counts(&hall.close(passes), shown);
    Ok(())
}

/// Plays a story at a hall of its own.
fn play_into<W: Wait>(
    rt: &W,
    alloc: Global,
    accounts: &Accounts,
    head: &[u8],
    trial: Trial,
    story: &[u8],
    shown: &mut Shown,
) -> Result<(), NoMemory> {
    let (hall, mut pass) = one_pass(alloc, head)?;
    play_links(
        rt, alloc, &hall, &mut pass, accounts, head, trial, story, shown,
    )?;
    close(alloc, hall, pass, shown)
}

/// What comes of a story.
pub(crate) fn play<W: Wait>(
    rt: &W,
    alloc: Global,
    accounts: &Accounts,
    head: &[u8],
    trial: Trial,
    story: &[u8],
) -> Result<Shown, NoMemory> {
    let mut shown = Shown::new(alloc);
    play_into(rt, alloc, accounts, head, trial, story, &mut shown)?;
    Ok(shown)
}
