//! Why a login fails.

ghost use Rattle.std.specs.Prelude.{◌≡◌};
ghost use Rattle.conn_asks.specs.Texts.{failure_name};

/// The condition of a failed login (RFC 6120, 6.5).
#[derive(Clone, Copy, Debug, PartialEq, Eq)]
pub enum Failure {
    /// The client aborted the exchange (6.5.1).
    Aborted,
    /// What was sent is not base64 (6.5.5).
    IncorrectEncoding,
    /// The client would act as another than the user (6.5.6).
    InvalidAuthzid,
    /// Another mechanism than those offered (6.5.7).
    InvalidMechanism,
    /// A text that departs from the mechanism's grammar, or comes out of turn (6.5.8).
    MalformedRequest,
    /// The client didn't prove that it has the password (6.5.10).
    NotAuthorized,
}

impl Failure {
    /// The name of the condition's element.
    pub fn name(self) -> &'static [u8]
        ensures { result.now ≡ failure_name self }
    {
        match self {
            Failure::Aborted => b"aborted",
            Failure::IncorrectEncoding => b"incorrect-encoding",
            Failure::InvalidAuthzid => b"invalid-authzid",
            Failure::InvalidMechanism => b"invalid-mechanism",
            Failure::MalformedRequest => b"malformed-request",
            Failure::NotAuthorized => b"not-authorized",
        }
    }
}
