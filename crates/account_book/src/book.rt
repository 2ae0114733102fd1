//! A list of accounts.

ghost use Rattle.std.specs.Prelude.{◌≡◌, ◌≤◌, ◌<◌, false, ◌++◌, ◌∷◌, [], take, length, map, IfOk, IfSome, IsTrue, IsOk};
ghost use Rattle.std.specs.List.{list_all};
ghost use Rattle.std.specs.Option.{option_copied};
ghost use Rattle.sha2.specs.Sha256.{sha256};
ghost use Rattle.hmac_kdf.specs.Hmac.{hmac};
ghost use Rattle.jid_core.specs.Names.{are_distinct};
ghost use Rattle.jid_core.specs.Preparation.{is_local};
ghost use Rattle.account_book.specs.Entries.{entry_of};
ghost use Rattle.account_book.specs.Lines.{line_after, has_name, Reads};
ghost use Rattle.account_book.specs.Lists.{names_of, entries_of, entries_within, named, IsNext, Gives};

use crate::account::Account;
use crate::fault::{BookFault, LineFault, LineKind};
use crate::line::read_line;
use crate::lines::first_line;
use hash_keys::HashKey;
use hmac_kdf::hmac_sha256;
use indexmap::IndexSet;
use std::alloc::{AllocError, Global};
use std::marker::Model;

/// How many accounts a list has at most where nothing else is said.
const MOST_ACCOUNTS: usize = 4096;

/// The accounts of a list, each with a name of its own.
#[derive(Drop)]
pub struct Accounts {
    accounts: Vec<Account>,
    /// Their names, in the same order.
    names: IndexSet<Vec<u8>, HashKey>,
    /// The key of what is told of unknown names.
    secret: [u8; 32],
}

impl Model for Accounts {
    ghost use Rattle.std.specs.Prelude.{◌≡◌, ◌≤◌, map, length, IsTrue};
    ghost use Rattle.std.specs.List.{list_all};
    ghost use Rattle.jid_core.specs.Names.{are_distinct};
    ghost use Rattle.jid_core.specs.Preparation.{is_local};
    ghost use Rattle.account_book.specs.Lists.{Book, names_of};

    ghost Value = { Book };

    ghost view = { λ b. record { accounts = b.accounts.items; secret = b.secret } };

    ghost invariant = { λ b. (map (λ k. k.items) b.names.keys ≡ names_of b.accounts.items)
        × IsTrue (list_all is_local (names_of b.accounts.items)) × IsTrue (are_distinct (names_of b.accounts.items))
        × (length b.accounts.items ≤ 65536) };
}

impl Accounts {
    fn new(alloc: Global, secret: [u8; 32], key: HashKey) -> Accounts
        ensures { result ≡ record { accounts = []; secret = secret } }
    {
        Accounts {
            accounts: Vec::new(alloc),
            names: IndexSet::with_hasher(alloc, key),
            secret,
        }
    }

    /// The account of a name. Costs as much as one look in a hash table.
    pub fn find(&self, name: &[u8]) -> Option<&Account>
        ensures named { option_copied result ≡ named name.now self.now.accounts }
        ensures own { IfSome result (λ account. account.now.name ≡ name.now) }
    {
        let place = self.names.get_index_of(name)?;
        self.accounts.get(place)
    }

    /// The accounts, in the order of their lines.
    pub fn names(&self) -> &[Account]
        ensures accounts { result.now ≡ self.now.accounts }
        ensures prepared { IsTrue (list_all is_local (names_of result.now)) }
        ensures differ { IsTrue (are_distinct (names_of result.now)) }
        ensures few { length result.now ≤ 65536 }
    {
        self.accounts.as_slice()
    }

    /// Sixteen bytes that stand for the salt of a name without an account: the same at each call, and unknown to one who doesn't
    /// know the secret.
    pub fn decoy(&self, name: &[u8]) -> [u8; 16]
        ensures { result ≡ take 16 (hmac sha256 self.now.secret name.now) }
    {
        let mut salt = [0u8; 16];
        salt.copy_from_slice(&hmac_sha256(&self.secret, name)[..16]);
        salt
    }

    fn has(&self, name: &[u8]) -> bool
        ensures { result ≡ has_name (map entry_of self.now.accounts) name.now }
    {
        self.names.contains(name)
    }

    /// One account more.
    fn with(self, alloc: Global, account: Account) -> Result<Accounts, AllocError>
        requires new { has_name (map entry_of self.accounts) account.name ≡ false }
        requires local { IsTrue (is_local account.name) }
        requires few { length self.accounts < 65536 }
        ensures { IfOk result (λ book. book ≡ record { accounts = self.accounts ++ account ∷ []; secret = self.secret }) }
    {
        let mut book = self;
        let name = account.name.bytes().to_vec(alloc)?;
        book.names.insert(name)?;
        book.accounts.push(account)?;
        Ok(book)
    }

    /// The account of a line that stands after those of these accounts, of at most so many.
    fn judge(&self, alloc: Global, line: &[u8], most: usize) -> Result<Account, LineFault>
        ensures read { Reads (line_after most (map entry_of self.now.accounts) line.now) result }
        ensures new { IfOk result (λ account. has_name (map entry_of self.now.accounts) account.name ≡ false) }
        ensures local { IfOk result (λ account. IsTrue (is_local account.name)) }
        ensures few { IsOk result → length self.now.accounts < most }
    {
        let account = read_line(alloc, line)?;
        if self.has(account.name.bytes()) {
            return Err(LineFault::Faulty(LineKind::Twice));
        }
        if self.accounts.len() < most {
            Ok(account)
        } else {
            Err(LineFault::Faulty(LineKind::TooMany))
        }
    }

    /// The same, with the number of the line in its fault.
    fn next_account(&self, alloc: Global, line: &[u8], most: usize) -> Result<Account, BookFault>
        ensures read { IsNext self.now.accounts (line_after most (map entry_of self.now.accounts) line.now) result }
        ensures new { IfOk result (λ account. has_name (map entry_of self.now.accounts) account.name ≡ false) }
        ensures local { IfOk result (λ account. IsTrue (is_local account.name)) }
        ensures few { IsOk result → length self.now.accounts < most }
    {
        match self.judge(alloc, line, most) {
            Ok(account) => Ok(account),
            Err(LineFault::NoMemory) => Err(BookFault::NoMemory),
            Err(LineFault::Faulty(kind)) => Err(BookFault::Line {
                line: self.accounts.len() as u64 + 1,
                kind,
            }),
        }
    }

    /// The accounts of a list of at most 4,096: see [`Accounts::read_most`].
    pub fn read(
        alloc: Global,
        bytes: &[u8],
        secret: [u8; 32],
        key: HashKey,
    ) -> Result<Accounts, BookFault>
        ensures read { Gives (entries_of bytes.now) result }
        ensures secret { IfOk result (λ book. book.secret ≡ secret) }
    {
        Accounts::read_most(alloc, bytes, secret, key, MOST_ACCOUNTS)
    }

    /// The accounts of a list of at most so many. Its bytes are read once, and each name is sought once.
    ///
    /// The first line at fault is told by its number, from 1, with the first [`LineKind`] that fits it. A list without lines has no
    /// accounts. The secret is the key of [`Accounts::decoy`]; by the other key names are found.
    pub fn read_most(
        alloc: Global,
        bytes: &[u8],
        secret: [u8; 32],
        key: HashKey,
        most: usize,
    ) -> Result<Accounts, BookFault>
        requires few { most ≤ 65536 }
        ensures read { Gives (entries_within most bytes.now) result }
        ensures secret { IfOk result (λ book. book.secret ≡ secret) }
    {
        let mut book = Accounts::new(alloc, secret, key);
        let mut rest = bytes;
        while !rest.is_empty() {
            let (line, more) = first_line(rest);
            let account = book.next_account(alloc, line, most)?;
            book = book.with(alloc, account)?;
            rest = more;
        }
        Ok(book)
    }
}
