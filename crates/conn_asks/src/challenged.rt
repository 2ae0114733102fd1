//! An exchange that waits for the last text of the client.

ghost use Rattle.std.specs.Prelude.{◌≡◌};
ghost use Rattle.conn_asks.specs.Users.{IsUserOf};

use jid_core::Part;
use scram_core::Scram;
use std::marker::Model;

/// An exchange in which the first text of the client was answered, seen as its texts and keys.
#[derive(Drop)]
pub struct Challenged {
    scram: Scram,
    /// The account, where the name has one.
    user: Option<Part>,
}

impl Model for Challenged {
    ghost use Rattle.scram_core.specs.Exchange.{Exchange};
    ghost use Rattle.conn_asks.specs.Users.{IsUserOf};

    ghost Value = { Exchange };

    ghost view = { λ c. c.scram };

    ghost invariant = { λ c. IsUserOf c.scram c.user };
}

impl Challenged {
    /// An exchange with an account of this name, or with none.
    pub(crate) fn new(scram: Scram, user: Option<Part>) -> Challenged
        requires { IsUserOf scram user }
        ensures { result ≡ scram }
    {
        Challenged { scram, user }
    }

    /// The exchange itself, and the account that it is with.
    pub(crate) fn into_parts(self) -> (Scram, Option<Part>)
        ensures scram { result.0 ≡ self }
        ensures user { IsUserOf self result.1 }
    {
        let Challenged { scram, user } = self;
        (scram, user)
    }
}
