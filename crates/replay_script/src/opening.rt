//! The first line of a script, `house DOMAIN USER,USER WORKERS`.
ghost use Rattle.std.specs.Prelude.{◌≡◌, ◌≤◌, length, bytes_eq, IfOk, IsTrue};
ghost use Rattle.std.specs.List.{list_any, list_all};
ghost use Rattle.jid_core.specs.Names.{are_distinct};
ghost use Rattle.jid_core.specs.Preparation.{is_local};
ghost use Rattle.replay_script.specs.Lines.{StepFits, domain_of, new_user, users_of, workers_of, house_of};
ghost use Rattle.replay_script.specs.Readings.{Gives};

use crate::event::read_user;
use crate::fault::LineFault;
use crate::fields::first_field;
use crate::numbers::MOST_WORKERS;
use crate::step::Step;
use jid_core::{Jid, Part, cut_at};
use sm_resume::read_number;
use stanza_tree::Several;
use std::alloc::Global;

/// How many bytes the domain may have (1,023 with `rooms.` in front of it).
const MOST_DOMAIN: usize = 1017;

/// How many users there may be: as many as a house takes.
const MOST_USERS: usize = 4096;

/// The house of a first line by what stands after its word. Costs the square of the number of users.
pub(crate) fn read_house(alloc: Global, rest: &[u8]) -> Result<Step, LineFault>
    ensures read { Gives (house_of rest.now) result }
    ensures fits { IfOk result StepFits }
{
    let (domain, rest) = first_field(rest).ok_or(LineFault::Bad)?;
    let domain = read_domain(alloc, domain)?;
    let (users, workers) = first_field(rest).ok_or(LineFault::Bad)?;
    let users = read_users(alloc, users)?;
    let workers = read_workers(workers).ok_or(LineFault::Bad)?;
    Ok(Step::Begin {
        domain,
        users,
        workers,
    })
}

fn read_workers(field: &[u8]) -> Option<u32>
    ensures { result ≡ workers_of field.now }
{
    let number = read_number(field)?;
    if 0 < number && number <= MOST_WORKERS {
        Some(number as u32)
    } else {
        None
    }
}

/// A prepared domain.
fn read_domain(alloc: Global, field: &[u8]) -> Result<Jid, LineFault>
    ensures { Gives (domain_of field.now) result }
{
    if field.len() > MOST_DOMAIN {
        return Err(LineFault::Bad);
    }
    let address = Jid::read(alloc, field)?;
    if address.domain.bytes() == field && address.local.is_none() && address.resource.is_none() {
        Ok(address)
    } else {
        Err(LineFault::Bad)
    }
}

fn has(users: &[Part], bytes: &[u8]) -> bool
    ensures { result ≡ list_any (λ u. bytes_eq u bytes.now) users.now }
{
    users.iter().any(|user| user.bytes() == bytes)
}

/// A user who is not among these.
fn read_new_user(alloc: Global, users: &[Part], bytes: &[u8]) -> Result<Part, LineFault>
    ensures read { Gives (new_user users.now bytes.now) result }
    ensures prepared { IfOk result (λ user. IsTrue (is_local user)) }
{
    if has(users, bytes) {
        return Err(LineFault::Bad);
    }
    read_user(alloc, bytes)
}

#[tactic(auto, using(crate::proofs::UserLemmas::users_refused, crate::proofs::UserLemmas::users_many))]
fn read_users(alloc: Global, field: &[u8]) -> Result<Several<Part>, LineFault>
    ensures read { Gives (users_of field.now) result }
    ensures prepared { IfOk result (λ users. IsTrue (list_all is_local users)) }
    ensures differ { IfOk result (λ users. IsTrue (are_distinct users)) }
    ensures few { IfOk result (λ users. length users ≤ 4096) }
{
    let mut users = Vec::new(alloc);
    let mut rest = field;
    for _count in 0..MOST_USERS {
        let (bytes, more) = cut_at(b',', rest);
        let user = read_new_user(alloc, users.as_slice(), bytes)?;
        users.push(user)?;
        match more {
            Some(more) => rest = more,
            None => return Ok(Several::of(users)),
        }
    }
    Err(LineFault::Bad)
}
