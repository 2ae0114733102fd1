//! An account.

use jid_core::Part;
use scram_core::Keys;

/// What a server knows of a user.
#[derive(Drop)]
pub struct Account {
    /// A prepared local part (RFC 7622, section 3.3).
    pub name: Part,
    /// What it keeps of the password.
    pub keys: Keys,
}
