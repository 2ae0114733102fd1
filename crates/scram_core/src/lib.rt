//! A SCRAM login (RFC 5802 and RFC 7677) from the server's side: [`Hello::read`] takes the client's first text,
//! [`Hello::challenge`] answers it, and [`Scram::last`] judges the client's last text.
//!
//! A login succeeds exactly where the client's proof meets the equation of RFC 5802, section 3. That the keys stay
//! secret, and how long a call takes, are no part of any contract.
#![tactic(auto)]

mod attributes;
mod exchange;
mod hello;
mod laws;
mod place;
mod proof;
mod stage;
mod step;
mod verifier;

pub use exchange::{Challenge, Scram, Success};
pub use hello::Hello;
pub use std::alloc::AllocError as NoMemory;
use std::alloc::AllocError;

/// A mechanism of SASL.
#[derive(Clone, Copy, Debug, PartialEq, Eq)]
pub enum Mechanism {
    /// SCRAM-SHA-1 (RFC 5802).
    Sha1,
    /// SCRAM-SHA-256 (RFC 7677).
    Sha256,
}

/// What a server keeps of a password (RFC 5802, section 3), for both mechanisms.
#[derive(Drop)]
pub struct Keys {
    /// The iteration count.
    pub rounds: u32,
    pub salt: Vec<u8>,
    /// StoredKey over SHA-1.
    pub stored1: [u8; 20],
    /// ServerKey over SHA-1.
    pub server1: [u8; 20],
    /// StoredKey over SHA-256.
    pub stored256: [u8; 32],
    /// ServerKey over SHA-256.
    pub server256: [u8; 32],
}

/// What was found of a name.
#[derive(Clone, Copy)]
pub enum Found<'a> {
    /// The keys of its account.
    Known(&'a Keys),
    /// No account. The bytes are the salt that is told in place of one.
    Unknown([u8; 16]),
}

/// Why a text of a client was refused.
#[derive(Clone, Copy, Debug, PartialEq, Eq)]
pub enum ScramFault {
    /// There was no memory for a text or a name.
    NoMemory,
    /// It departs from the grammar: the length of its longest front that begins a text of it.
    Malformed(usize),
    /// Its `a=` names another identity than the user's own address.
    BadAuthzid,
    /// Its `r=` is another nonce than the server's.
    NonceDiffers,
    /// Its `c=` is another opening than that of the first text.
    BindingDiffers,
    /// Its `p=` is no proof.
    ProofDiffers,
}

impl From<AllocError> for ScramFault {
    ghost use Rattle.std.specs.Prelude.{◌≡◌};
    ghost use Rattle.scram_core.specs.declared.ScramFault.TheVariants as fault;

    ghost from_gives = { λ _ f. f ≡ fault.NoMemory };

    fn from(_error: AllocError) -> ScramFault {
        ScramFault::NoMemory
    }
}
