//! The three kinds of stanzas and their types (RFC 6120, 8.2; RFC 6121, 4.7.1 and 5.2.2).
ghost use Rattle.std.specs.Prelude.{◌≡◌};
ghost use Rattle.stanza_model.specs.Kinds.{kind_name};

/// The kind of a stanza (RFC 6120, 8.2).
#[derive(Clone, Copy, Debug, PartialEq, Eq)]
pub enum Kind {
    Message,
    Presence,
    Iq,
}

/// The type of a message (RFC 6121, 5.2.2).
#[derive(Clone, Copy, Debug, PartialEq, Eq)]
pub enum MessageForm {
    Chat,
    /// Also a message without a type, and one of a type that is none of these.
    Normal,
    Headline,
    Groupchat,
    Error,
}

/// The type of a presence (RFC 6121, 4.7.1).
#[derive(Clone, Copy, Debug, PartialEq, Eq)]
pub enum PresenceForm {
    /// A presence without a type.
    Available,
    Unavailable,
    Subscribe,
    Subscribed,
    Unsubscribe,
    Unsubscribed,
    Probe,
    Error,
}

/// The type of an iq (RFC 6120, 8.2.3).
#[derive(Clone, Copy, Debug, PartialEq, Eq)]
pub enum IqForm {
    Get,
    Set,
    Result,
    Error,
}

impl Kind {
    /// The local name of its elements.
    pub fn name(self) -> &'static str
        ensures { result.now ≡ kind_name self }
    {
        match self {
            Kind::Message => "message",
            Kind::Presence => "presence",
            Kind::Iq => "iq",
        }
    }
}
