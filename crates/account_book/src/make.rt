//! The line of a name with a password.

ghost use Rattle.std.specs.Prelude.{◌≡◌, ◌≤◌, ◌++◌, length, codes, Ok, IfOk, OnOk, IsTrue};
ghost use Rattle.std.specs.Fmt.{decimal};
ghost use Rattle.sha1.specs.Sha1.{sha1};
ghost use Rattle.sha2.specs.Sha256.{sha256};
ghost use Rattle.jid_core.specs.Preparation.{is_local};
ghost use Rattle.scram_core.specs.Login.{base64_of};
ghost use Rattle.account_book.specs.Entries.{line_text, IsSized};
ghost use Rattle.account_book.specs.Lines.{line_of};
ghost use Rattle.account_book.specs.Keys.{salted_password, stored_key, server_key, entry_for};

use base64::engine::general_purpose::STANDARD;
use hmac_kdf::{hi_sha1, hi_sha256, hmac_sha1, hmac_sha256};
use jid_core::Part;
use sha1::Sha1;
use sha2::{Digest, Sha256};
use std::alloc::{AllocError, Global};

/// The rounds of an account that is made: the fewest that RFC 7677, 4, allows, since each login costs its client as many hashes.
const ROUNDS: u32 = 4096;

/// Appends a space and the rounds.
fn push_rounds(alloc: Global, line: &mut Vec<u8>) -> Result<(), AllocError>
    ensures { OnOk result (line.new.items ≡ line.old.items ++ codes " " ++ decimal 4096) }
{
    let text = format!(in alloc; "{}", ROUNDS)?;
    line.push(b' ')?;
    line.extend_from_slice(text.as_bytes())
}

/// Appends a space and the base64 of bytes.
fn push_base64(alloc: Global, bytes: &[u8], line: &mut Vec<u8>) -> Result<(), AllocError>
    ensures { OnOk result (line.new.items ≡ line.old.items ++ codes " " ++ base64_of bytes.now) }
{
    let text = STANDARD.encode(alloc, bytes)?;
    line.push(b' ')?;
    line.extend_from_slice(text.as_bytes())
}

/// Appends StoredKey and ServerKey over SHA-1.
fn push_keys_sha1(
    alloc: Global,
    password: &[u8],
    salt: &[u8],
    line: &mut Vec<u8>,
) -> Result<(), AllocError>
    ensures text { OnOk result (line.new.items ≡ line.old.items
        ++ codes " " ++ base64_of (stored_key sha1 (salted_password sha1 password.now salt.now 4096))
        ++ codes " " ++ base64_of (server_key sha1 (salted_password sha1 password.now salt.now 4096))) }
    ensures stored { IsSized 20 20 (stored_key sha1 (salted_password sha1 password.now salt.now 4096)) }
    ensures server { IsSized 20 20 (server_key sha1 (salted_password sha1 password.now salt.now 4096)) }
{
    let salted = hi_sha1(password, salt, ROUNDS);
    let client = hmac_sha1(&salted, b"Client Key");
    let stored = Sha1::digest(&client);
    let server = hmac_sha1(&salted, b"Server Key");
    push_base64(alloc, &stored, line)?;
    push_base64(alloc, &server, line)
}

/// Appends StoredKey and ServerKey over SHA-256.
fn push_keys_sha256(
    alloc: Global,
    password: &[u8],
    salt: &[u8],
    line: &mut Vec<u8>,
) -> Result<(), AllocError>
    ensures text { OnOk result (line.new.items ≡ line.old.items
        ++ codes " " ++ base64_of (stored_key sha256 (salted_password sha256 password.now salt.now 4096))
        ++ codes " " ++ base64_of (server_key sha256 (salted_password sha256 password.now salt.now 4096))) }
    ensures stored { IsSized 32 32 (stored_key sha256 (salted_password sha256 password.now salt.now 4096)) }
    ensures server { IsSized 32 32 (server_key sha256 (salted_password sha256 password.now salt.now 4096)) }
{
    let salted = hi_sha256(password, salt, ROUNDS);
    let client = hmac_sha256(&salted, b"Client Key");
    let stored = Sha256::digest(&client);
    let server = hmac_sha256(&salted, b"Server Key");
    push_base64(alloc, &stored, line)?;
    push_base64(alloc, &server, line)
}

/// The line of an account with this password: its keys are those of RFC 5802, section 3, over SHA-1 and SHA-256, with 4096 rounds.
///
/// The password's bytes are taken as they are, which is what SASLprep (RFC 4013) makes of printable ASCII. Where the name is a
/// prepared local part and the salt has 8 to 64 bytes, the line is read back as this account.
pub fn make_line(
    alloc: Global,
    name: &Part,
    password: &[u8],
    salt: &[u8],
) -> Result<Vec<u8>, AllocError>
    ensures text { IfOk result (λ line. line.items ≡ line_text (entry_for name.now password.now salt.now)) }
    ensures read { IsTrue (is_local name.now) → 8 ≤ length salt.now → length salt.now ≤ 64
        → IfOk result (λ line. line_of line.items ≡ Ok (entry_for name.now password.now salt.now)) }
{
    let mut line = name.bytes().to_vec(alloc)?;
    push_rounds(alloc, &mut line)?;
    push_base64(alloc, salt, &mut line)?;
    push_keys_sha1(alloc, password, salt, &mut line)?;
    push_keys_sha256(alloc, password, salt, &mut line)?;
    line.push(b'\n')?;
    Ok(line)
}
