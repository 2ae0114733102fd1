//! The conditions of stanza errors (RFC 6120, 8.3.3).
ghost use Rattle.std.specs.Prelude.{◌≡◌};
ghost use Rattle.stanza_model.specs.Conditions.{condition_name, error_type};

/// Why a stanza is answered by an error (RFC 6120, 8.3.3).
#[derive(Clone, Copy, Debug, PartialEq, Eq)]
pub enum Condition {
    BadRequest,
    Conflict,
    FeatureNotImplemented,
    Forbidden,
    ItemNotFound,
    JidMalformed,
    NotAcceptable,
    NotAllowed,
    NotAuthorized,
    RegistrationRequired,
    RemoteServerNotFound,
    ResourceConstraint,
    ServiceUnavailable,
    UnexpectedRequest,
}

impl Condition {
    /// The local name of its element.
    pub fn name(self) -> &'static str
        ensures { result.now ≡ condition_name self }
    {
        match self {
            Condition::BadRequest => "bad-request",
            Condition::Conflict => "conflict",
            Condition::FeatureNotImplemented => "feature-not-implemented",
            Condition::Forbidden => "forbidden",
            Condition::ItemNotFound => "item-not-found",
            Condition::JidMalformed => "jid-malformed",
            Condition::NotAcceptable => "not-acceptable",
            Condition::NotAllowed => "not-allowed",
            Condition::NotAuthorized => "not-authorized",
            Condition::RegistrationRequired => "registration-required",
            Condition::RemoteServerNotFound => "remote-server-not-found",
            Condition::ResourceConstraint => "resource-constraint",
            Condition::ServiceUnavailable => "service-unavailable",
            Condition::UnexpectedRequest => "unexpected-request",
        }
    }

    /// The type of its errors (RFC 6120, 8.3.2): `auth`, `cancel`, `modify` or `wait`.
    pub fn error_type(self) -> &'static str
        ensures { result.now ≡ error_type self }
    {
        match self {
            Condition::BadRequest => "modify",
            Condition::Conflict => "cancel",
            Condition::FeatureNotImplemented => "cancel",
            Condition::Forbidden => "auth",
            Condition::ItemNotFound => "cancel",
            Condition::JidMalformed => "modify",
            Condition::NotAcceptable => "modify",
            Condition::NotAllowed => "cancel",
            Condition::NotAuthorized => "auth",
            Condition::RegistrationRequired => "auth",
            Condition::RemoteServerNotFound => "cancel",
            Condition::ResourceConstraint => "wait",
            Condition::ServiceUnavailable => "cancel",
            Condition::UnexpectedRequest => "wait",
        }
    }
}
