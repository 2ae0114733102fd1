//! Stories. A story is a line `== TITLE` and the lines up to the next such line.

use crate::lines::{after_word, first_line, number_of, split_before};
use crate::play::{Trial, play};
use crate::shown::Shown;
use account_book::{Accounts, BookFault};
use hash_keys::HashKey;
use stanza_tree::NoMemory;
use std::alloc::Global;
use std::sync::Wait;

const TITLE: &[u8] = b"== ";

/// How many bytes a reading or a sending moves at most when a story is first played, and in its other plays.
const PIECE: usize = 4096;

const SMALL_PIECES: [usize; 2] = [7, 1];

/// What differs in a story that is played again and again: how many bytes its first link hears, or which call of that link or of its
/// dice fails.
#[derive(Clone, Copy)]
enum Each {
    Cut,
    Link,
    Dice,
}

impl Each {
    fn trial(self, at: u64) -> Trial {
        let trial = Trial::of(PIECE);
        match self {
            Each::Cut => Trial {
                heard: at as usize,
                ..trial
            },
            Each::Link => Trial {
                link_fails: at,
                ..trial
            },
            Each::Dice => Trial {
                dice_fails: at,
                ..trial
            },
        }
    }
}

/// The lines `account ENTRY` of a head.
fn list_of(alloc: Global, head: &[u8]) -> Result<Vec<u8>, NoMemory> {
    let mut list = Vec::new(alloc);
    for line in head.split_inclusive(|byte| *byte == b'\n') {
        if let Some(entry) = after_word(line, b"account ") {
            list.extend_from_slice(entry)?;
        }
    }
    Ok(list)
}

/// Plays each story, and tells what comes of it. The lines before the first story are its head.
pub(crate) fn tell_all<W: Wait>(
    rt: &W,
    alloc: Global,
    text: &[u8],
    out: &mut Vec<u8>,
) -> Result<(), NoMemory> {
    let (head, stories) = split_before(text, TITLE);
    let list = list_of(alloc, head)?;
    match Accounts::read(alloc, list.as_slice(), [0; 32], HashKey::fixed()) {
        Ok(accounts) => { tell_stories(rt, alloc, &accounts, head, stories, out) }
        Err(BookFault::Line { line, kind: _ }) => tell_number(alloc, b"accounts line", line, out),
        Err(BookFault::NoMemory) => Err(NoMemory),
    }
}

fn tell_number(
    alloc: Global,
    words: &[u8],
    number: u64,
    out: &mut Vec<u8>,
) -> Result<(), NoMemory> {
    let digits = format!(in alloc; " {number}\n")?;
    out.extend_from_slice(words)?;
    out.extend_from_slice(digits.as_bytes())?;
    Ok(())
}

fn tell_stories<W: Wait>(
    rt: &W,
    alloc: Global,
    accounts: &Accounts,
    head: &[u8],
    stories: &[u8],
    out: &mut Vec<u8>,
) -> Result<(), NoMemory> {
    let mut rest = stories;
    for _story in 0..stories.len() {
        if rest.is_empty() {
            break;
        }
        let (title, after) = first_line(rest);
        let (story, next) = split_before(after, TITLE);
        out.extend_from_slice(title)?;
        out.push(b'\n')?;
        tell(rt, alloc, accounts, head, story, out)?;
        rest = next;
    }
    Ok(())
}

/// A story's line `each cut N`, `each link N` or `each dice N`.
fn each_of(story: &[u8]) -> Option<(Each, u64)> {
    for line in story.split(|byte| *byte == b'\n') {
        if let Some(most) = after_word(line, b"each cut ") {
            return Some((Each::Cut, number_of(most)));
        }
        if let Some(most) = after_word(line, b"each link ") {
            return Some((Each::Link, number_of(most)));
        }
        if let Some(most) = after_word(line, b"each dice ") {
            return Some((Each::Dice, number_of(most)));
        }
    }
    None
}

fn tell<W: Wait>(
    rt: &W,
    alloc: Global,
    accounts: &Accounts,
    head: &[u8],
    story: &[u8],
    out: &mut Vec<u8>,
) -> Result<(), NoMemory> {
    let whole = play(rt, alloc, accounts, head, Trial::of(PIECE), story)?;
    match each_of(story) {
        Some((each, most)) => tell_each(rt, alloc, accounts, head, story, each, most, &whole, out),
        None => tell_pieces(rt, alloc, accounts, head, story, &whole, out),
    }
}

/// What came of a story, and at which sizes of pieces other bytes did, or where each sending is first answered `Later`.
fn tell_pieces<W: Wait>(
    rt: &W,
    alloc: Global,
    accounts: &Accounts,
    head: &[u8],
    story: &[u8],
    whole: &Shown,
    out: &mut Vec<u8>,
) -> Result<(), NoMemory> {
    out.extend_from_slice(whole.lines.as_slice())?;
    if story.starts_with(b"counts\n") {
        tell_number(alloc, b"links", whole.links, out)?;
        tell_number(alloc, b"turns", whole.turns, out)?;
    }
    let joined = whole.joined(alloc)?;
    for piece in SMALL_PIECES {
        let again = play(rt, alloc, accounts, head, Trial::of(piece), story)?;
        tell_piece(alloc, piece as u64, joined.as_slice(), &again, out)?;
    }
    let later = Trial {
        is_later: true,
        ..Trial::of(PIECE)
    };
    let again = play(rt, alloc, accounts, head, later, story)?;
    tell_piece(alloc, 0, joined.as_slice(), &again, out)
}

fn tell_piece(
    alloc: Global,
    piece: u64,
    joined: &[u8],
    again: &Shown,
    out: &mut Vec<u8>,
) -> Result<(), NoMemory> {
    let found = again.joined(alloc)?;
    if found.as_slice() != joined {
        tell_number(alloc, b"differs at", piece, out)?;
    }
    Ok(())
}

/// A story again and again: from which number on what comes of it, where that differs from what came before.
fn tell_each<W: Wait>(
    rt: &W,
    alloc: Global,
    accounts: &Accounts,
    head: &[u8],
    story: &[u8],
    each: Each,
    most: u64,
    whole: &Shown,
    out: &mut Vec<u8>,
) -> Result<(), NoMemory> {
    let mut last = Vec::new(alloc);
    for at in 0..most {
        let again = play(rt, alloc, accounts, head, each.trial(at), story)?;
        tell_next(alloc, at, whole, &again, &mut last, out)?;
    }
    Ok(())
}

fn tell_next(
    alloc: Global,
    at: u64,
    whole: &Shown,
    again: &Shown,
    last: &mut Vec<u8>,
    out: &mut Vec<u8>,
) -> Result<(), NoMemory> {
    if !whole.said.as_slice().starts_with(again.said.as_slice()) {
        tell_number(alloc, b"says other texts at", at, out)?;
    }
    if again.after_first() != last.as_slice() {
        tell_number(alloc, b"from", at, out)?;
        out.extend_from_slice(again.after_first())?;
        last.clear();
        last.extend_from_slice(again.after_first())?;
    }
    Ok(())
}
