//! What holds of every subscription's stanza: the contract is the law, and the body is empty.
ghost use Rattle.std.specs.Prelude.{◌≡◌, false};
ghost use Rattle.jid_core.specs.Addresses.{same_address, same_bare};
ghost use Rattle.stanza_model.specs.Subscriptions.{outbound};
ghost use Rattle.stanza_model.specs.declared.kinds.PresenceForm.{PresenceForm};
ghost use Rattle.stanza_model.specs.declared.shared.Side.{Side};
ghost use Rattle.subscription_pairs.specs.Changes.{effects_of, removal};
ghost use Rattle.subscription_pairs.specs.Sides.{after, AreListed, AreOpposite};
ghost use Rattle.subscription_pairs.specs.Users.{User, side_of};

/// Both sides go on to speak of the same facts, and of contacts that are there.
pub fn sides_agree()
    ensures opposite { (mine theirs : Side) (form : PresenceForm) → AreOpposite mine theirs
        → AreOpposite (outbound mine theirs form).mine (outbound mine theirs form).theirs }
    ensures listed { (mine theirs : Side) (form : PresenceForm) → AreListed mine theirs
        → AreListed (outbound mine theirs form).mine (outbound mine theirs form).theirs }
{}

/// What the effects set is what becomes of the two sides, where the two are not one user.
pub fn effects_make_the_outcome()
    ensures mine { (a b : User) (mine theirs : Side) (form : PresenceForm) → same_address a.bare b.bare ≡ false
        → after a.bare b.bare mine (effects_of a b mine (outbound mine theirs form)) ≡ (outbound mine theirs form).mine }
    ensures theirs { (a b : User) (mine theirs : Side) (form : PresenceForm) → same_address a.bare b.bare ≡ false
        → after b.bare a.bare theirs (effects_of a b mine (outbound mine theirs form)) ≡ (outbound mine theirs form).theirs }
{}

/// After a removal neither sees the other, and neither has asked.
pub fn removal_ends_all()
    ensures { (a b : User) → same_bare a.bare b.bare ≡ false
        → after a.bare b.bare (side_of a b) (removal a b) ≡ record (side_of a b) { sees = false; seen = false; asked = false; asked_by = false } }
{}
