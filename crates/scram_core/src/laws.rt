//! What the definitions say, in the words of RFC 5802 and RFC 4648.

ghost use Rattle.std.specs.Prelude.{◌≡◌, ◌<◌, ◌≤◌, ℕ, List, ◌++◌, length, IsTrue};
ghost use Rattle.hmac_kdf.specs.Hi.{exclusive_or};
ghost use Rattle.hmac_kdf.specs.Hmac.{hmac};
ghost use Rattle.base64.specs.GeneralPurpose.{IsBytes};
ghost use Rattle.scram_core.specs.Expressions.{IsText};
ghost use Rattle.scram_core.specs.Grammar.{base64, saslname, client_first_message, client_final_message};
ghost use Rattle.scram_core.specs.Attributes.{escaped, unescaped, nonce_of_first, nonce_of_server};
ghost use Rattle.scram_core.specs.Login.{base64_of, is_server_nonce, server_first, IsProof};
ghost use Rattle.scram_core.specs.declared.ScramFault.{ScramFault};
ghost use Rattle.scram_core.specs.declared.proof.Account.TheVariants as account;
ghost use Rattle.scram_core.specs.Exchange.{Exchange, challenge_of, IsLastFault};
ghost use Rattle.scram_core.specs.Parts.{HasFirstParts, HasLastParts};

/// What stands between the commas of a client's text are the productions of the grammar.
pub fn texts_have_their_parts()
    ensures first { (text : List ℕ) → IsText client_first_message text → HasFirstParts text }
    ensures last { (text : List ℕ) → IsText client_final_message text → HasLastParts text }
{}

/// The texts of base64 are the encodings of RFC 4648, section 4, and no others.
pub fn base64_is_the_encoding_of_bytes()
    ensures decodes { (text : List ℕ) → IsText base64 text
        → (bytes : List ℕ) × IsBytes bytes × (text ≡ base64_of bytes) }
    ensures encodes { (bytes : List ℕ) → IsBytes bytes → IsText base64 (base64_of bytes) }
{}

/// The nonce of a challenge is the client's, and then the server's own.
pub fn a_nonce_is_of_both_sides()
    ensures { (first own salt : List ℕ) (rounds : ℕ) → IsTrue (is_server_nonce own)
        → nonce_of_server (server_first (nonce_of_first first ++ own) salt rounds) ≡ nonce_of_first first ++ own }
{}

/// RFC 5802, section 3: ClientProof := ClientKey XOR ClientSignature, where StoredKey := H(ClientKey), is a proof.
pub fn a_proof_is_made_of_the_client_key()
    ensures { (hash : List ℕ → List ℕ) (key message : List ℕ) → length key ≡ length (hmac hash (hash key) message)
        → IsProof hash (hash key) message (exclusive_or key (hmac hash (hash key) message)) }
{}

/// The base64 of 1 to 192 bytes is a nonce of the server's own.
pub fn encoded_bytes_are_a_nonce()
    ensures { (bytes : List ℕ) → IsBytes bytes → 0 < length bytes → length bytes ≤ 192
        → IsTrue (is_server_nonce (base64_of bytes)) }
{}

/// A name is what its escapes stand for: escaping and reading it are inverse.
pub fn names_are_what_their_escapes_say()
    ensures read { (name : List ℕ) → unescaped (escaped name) ≡ name }
    ensures spelt { (text : List ℕ) → IsText saslname text → escaped (unescaped text) ≡ text }
{}

/// An exchange with an unknown name refuses a last text as one with a known name of this salt and these rounds
/// does, and challenges alike. So neither text tells whether the name is known, except for a success.
pub fn refusals_do_not_tell_of_an_account()
    ensures challenge { (exchange : Exchange) → challenge_of (record exchange { account = account.Unknown }) ≡ challenge_of exchange }
    ensures refusal { (exchange : Exchange) (last : List ℕ) (fault : ScramFault) → IsLastFault exchange last fault
        → IsLastFault (record exchange { account = account.Unknown }) last fault }
{}
