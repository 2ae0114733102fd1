//! The first text of a client (RFC 5802, section 7: client-first-message).

ghost use Rattle.std.specs.Prelude.{◌≡◌, ◌≢◌, ◌⊎◌, [], ◌++◌, drop, codes, IfOk, OnOk, IfErr};
ghost use Rattle.std.specs.Bool.{MatchBool};
ghost use Rattle.scram_core.specs.Expressions.{IsText};
ghost use Rattle.scram_core.specs.Grammar.{client_first_message};
ghost use Rattle.scram_core.specs.Attributes.{name_of, unescaped};
ghost use Rattle.scram_core.specs.Exchange.{IsOwnAuthzid, IsHelloFault};

use crate::ScramFault;
use crate::attributes::{cut_at_comma, from_place, unescape, value_of_first};
use crate::place::place_of;
use crate::stage::Message;
use std::alloc::{AllocError, Global};
use std::marker::Model;

/// A client's first text, seen as its bytes.
#[derive(Drop)]
pub struct Hello {
    text: Vec<u8>,
    name: Vec<u8>,
}

impl Model for Hello {
    ghost use Rattle.std.specs.Prelude.{◌≡◌, List, ℕ, true};
    ghost use Rattle.scram_core.specs.Attributes.{name_of};
    ghost use Rattle.scram_core.specs.Grammar.{client_first_message};
    ghost use Rattle.scram_core.specs.Matching.{matches};

    ghost Value = { List ℕ };

    ghost view = { λ h. h.text.items };

    ghost invariant = { λ h. (matches client_first_message h.text.items ≡ true) × (h.name.items ≡ name_of h.text.items) };
}

impl Hello {
    /// Reads a client's first text, for users at a domain.
    ///
    /// Malformed where the bytes are no client-first-message, at the length of their longest front that begins
    /// one; BadAuthzid where they name another identity to act as than the user's own address.
    pub fn read(alloc: Global, bytes: &[u8], domain: &[u8]) -> Result<Hello, ScramFault>
        ensures same { IfOk result (λ hello. hello ≡ bytes.now) }
        ensures text { OnOk result (IsText client_first_message bytes.now) }
        ensures own { OnOk result (IsOwnAuthzid bytes.now domain.now) }
        ensures refused { IfErr result (IsHelloFault bytes.now domain.now) }
    {
        if let Some(place) = place_of(Message::First, bytes) {
            return Err(ScramFault::Malformed(place));
        }
        let (_, after_flag) = cut_at_comma(bytes);
        let (authzid, bare) = cut_at_comma(after_flag);
        let name = unescape(alloc, value_of_first(bare))?;
        if !is_own(alloc, authzid, name.as_slice(), domain)? {
            return Err(ScramFault::BadAuthzid);
        }
        let text = bytes.to_vec(alloc)?;
        Ok(Hello { text, name })
    }

    /// The name of the account, without its escapes.
    pub fn name(&self) -> &[u8]
        ensures { result.now ≡ name_of self.now }
    {
        self.name.as_slice()
    }

    /// The text itself.
    pub(crate) fn text(&self) -> &[u8]
        ensures same { result.now ≡ self.now }
        ensures grammar { IsText client_first_message self.now }
    {
        self.text.as_slice()
    }
}

/// Whether an authzid is absent, or is the name at the domain.
fn is_own(alloc: Global, authzid: &[u8], name: &[u8], domain: &[u8]) -> Result<bool, AllocError>
    ensures { IfOk result (λ own. MatchBool own
        ((authzid.now ≡ []) ⊎ (unescaped (drop 2 authzid.now) ≡ name.now ++ codes "@" ++ domain.now))
        ((authzid.now ≢ []) × (unescaped (drop 2 authzid.now) ≢ name.now ++ codes "@" ++ domain.now))) }
{
    if authzid.is_empty() {
        return Ok(true);
    }
    let given = unescape(alloc, from_place(authzid, 2))?;
    let mut own = name.to_vec(alloc)?;
    own.push(b'@')?;
    own.extend_from_slice(domain)?;
    Ok(given.as_slice() == own.as_slice())
}
