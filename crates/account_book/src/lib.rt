//! A list of accounts, one line each: [`make_line`] makes a line from a password, [`Accounts::read`] and [`Accounts::read_most`]
//! read a list, and [`Accounts::find`] finds the account of a name.
//!
//! A line is `NAME ROUNDS SALT STORED1 SERVER1 STORED256 SERVER256` with one space between its fields and LF at its end. NAME is a
//! prepared local part (RFC 7622, section 3.3). ROUNDS is a decimal from 4096 to 1000000 without leading zeros. The others are base64
//! (RFC 4648, section 4, with padding): a salt of 8 to 64 bytes, and StoredKey and ServerKey (RFC 5802, section 3), of 20 bytes over
//! SHA-1 and of 32 over SHA-256.
#![tactic(auto)]

mod account;
mod book;
mod fault;
mod fields;
mod laws;
mod line;
mod lines;
mod make;

pub use account::Account;
pub use book::Accounts;
pub use fault::{BookFault, LineKind};
pub use line::{LEAST_SALT, MOST_SALT};
pub use make::make_line;
pub use std::alloc::AllocError as NoMemory;
