//! Accounts, and a house for their users.

ghost use Rattle.std.specs.Prelude.{◌≡◌, ◌⊎◌, ◌≤◌, ◌∷◌, [], ℕ, List, IfErr, IfOk, Ok, OnErr, length, map, true};
ghost use Rattle.std.specs.List.{list_all};
ghost use Rattle.account_book.specs.Entries.{entry_of};
ghost use Rattle.account_book.specs.Lists.{names_of};
ghost use Rattle.jid_core.specs.Names.{are_distinct};
ghost use Rattle.jid_core.specs.Preparation.{is_local};
ghost use Rattle.house_core.specs.Houses.{held};
ghost use Rattle.house_model.specs.Histories.{StandsFor};
ghost use Rattle.house_model.specs.States.{opening_with};
ghost use Rattle.outside.specs.Devices.{Rose};
ghost use Rattle.outside.specs.Tapes.{Tells};
ghost use Rattle.serve_run.specs.Limits.{limits};
ghost use Rattle.serve_run.specs.Services.{IsRefused, entries_for, tally};

use crate::limits::{limits_of, most_lines};
use account_book::{Accounts, BookFault};
use hash_keys::HashKey;
use hmac_kdf::hmac_sha256;
use house_core::House;
use jid_core::{Jid, Part};
use outside::{Filled, Ports};
use script_play::Status;
use stanza_tree::NoMemory;
use std::alloc::Global;

/// The accounts of a list for so many sessions. The secret is the key of what is told to names without one.
pub(crate) fn accounts_of(
    alloc: Global,
    list: &[u8],
    secret: [u8; 32],
    key: HashKey,
    sessions: u32,
) -> Result<Accounts, Status>
    ensures read { IfOk result (λ book. entries_for sessions list.now ≡ Ok (map entry_of book.accounts)) }
    ensures secret { IfOk result (λ book. book.secret ≡ secret) }
    ensures refused { IfErr result (IsRefused (entries_for sessions list.now)) }
{
    match Accounts::read_most(alloc, list, secret, key, most_lines(sessions)) {
        Ok(accounts) => Ok(accounts),
        Err(BookFault::NoMemory) => Err(Status::NoMemory),
        Err(BookFault::Line { line, kind: _ }) => Err(Status::Accounts(line)),
    }
}

/// The names of accounts.
fn users_of(alloc: Global, accounts: &Accounts) -> Result<Vec<Part>, NoMemory>
    ensures names { IfOk result (λ users. users.items ≡ names_of accounts.now.accounts) }
    ensures prepared { list_all is_local (names_of accounts.now.accounts) ≡ true }
    ensures differ { are_distinct (names_of accounts.now.accounts) ≡ true }
    ensures few { length accounts.now.accounts ≤ 65536 }
{
    let mut users = Vec::new(alloc);
    for account in accounts.names() {
        users.push(account.name.copy(alloc)?)?;
    }
    Ok(users)
}

/// A house with so many lines and sessions for the users of accounts, before its first event. Names are hashed by the key.
pub(crate) fn house_of(
    alloc: Global,
    domain: &Jid,
    accounts: &Accounts,
    lines: u32,
    sessions: u32,
    key: HashKey,
) -> Result<House, NoMemory>
    ensures new { IfOk result (λ h. StandsFor (opening_with (limits sessions) domain.now (names_of accounts.now.accounts) lines) [] (held h)) }
    ensures lines { IfOk result (λ h. length h.table.lines ≡ lines) }
{
    let users = users_of(alloc, accounts)?;
    let limits = limits_of(sessions);
    House::with_limits(alloc, domain, users.as_slice(), lines, limits, key)
}

/// Random bytes that nobody else knows: what the ports drew.
pub(crate) fn secret_of<P: Ports>(ports: &mut P) -> Result<[u8; 32], Status>
    ensures kept { P.faults ports.old ≤ P.faults ports.new }
    ensures cause { IfErr result (λ s. (s ≡ Status.ListenFault) × Rose (P.faults ports.old) (P.faults ports.new)) }
    ensures same { tally (P.tapes ports.new) (P.links ports.new) (P.dice_faults ports.new) (P.address ports.new) (P.drawn ports.old)
        ≡ tally (P.tapes ports.old) (P.links ports.old) (P.dice_faults ports.old) (P.address ports.old) (P.drawn ports.old) }
    ensures long { IfOk result (λ secret. length secret ≡ 32) }
    ensures drew { IfOk result (λ secret. Tells (List ℕ) (P.drawn ports.old) (P.drawn ports.new) (secret ∷ [])) }
    ensures nothing { OnErr result (Tells (List ℕ) (P.drawn ports.old) (P.drawn ports.new) []) }
{
    let mut secret = [0u8; 32];
    match ports.fill(&mut secret) {
        Filled::Full => Ok(secret),
        Filled::Failed => Err(Status::ListenFault),
    }
}

/// The key by which names are hashed, made of bytes that nobody else knows, of which it tells nothing (RFC 5869, 2.3, with one block).
pub(crate) fn hash_key(secret: &[u8; 32]) -> HashKey {
    let mac = hmac_sha256(secret, b"names\x01");
    let mut bytes = [0u8; 16];
    bytes.copy_from_slice(&mac[..16]);
    HashKey::of(bytes)
}
