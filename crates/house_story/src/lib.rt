//! Clients that are cut in the middle of what they are sent, and resume: so what the promises ask for can be met, and each of them says
//! something. Each function's contract is a law, and its body is empty.
#![tactic(auto)]

ghost use Rattle.std.specs.Prelude.{◌≡◌, [], ◌∷◌, ◌++◌, Some, true};
ghost use Rattle.house_model.specs.Sessions.{Gone};
ghost use Rattle.house_model.specs.Histories.{IsOpening, Legal, after};
ghost use Rattle.house_model.specs.Lines.{acted, carried, lines};
ghost use Rattle.house_model.specs.Accounts.{IsAccountOf, handled};
ghost use Rattle.house_model.specs.Promises.{can_resume, counted, run_of, session_in};
ghost use Rattle.house_model.specs.Resuming.{InTurn};
ghost use Rattle.house_model.specs.Stays.{live_of};
ghost use Rattle.house_story.specs.Stanzas.{here, to_phone, shown_here, come_there, come_to_all};
ghost use Rattle.house_story.specs.Story.{her_house, her_id, come, until_cut, back, story, her_account, AreSent};
ghost use Rattle.house_story.specs.Talk.{AreSaid, desk_enters, her_reading, no_subject, phone_enters, said, seats_in, talk};

/// The story is legal, of stanzas that a stream can bring, and its client counts. It handled four entries, two on each of its connections,
/// and these are all that was queued for it; the second connection begins with the entry that was given on the first, and not handled. Both
/// of its stanzas were acted on. It could resume its session when it asked for it. The other client closed its stream, and its session
/// departed.
pub fn the_story_is_told()
    ensures starts { IsOpening her_house }
    ensures sent { AreSent }
    ensures legal { Legal her_house story }
    ensures account { IsAccountOf her_account her_house story 1 }
    ensures lines { lines her_house story 1 ≡ 1 ∷ 3 ∷ [] }
    ensures before { carried her_house story 1 1 ≡ shown_here ∷ come_there ∷ come_to_all ∷ [] }
    ensures again { carried her_house story 1 3 ≡ come_to_all ∷ come_there ∷ [] }
    ensures handled { handled her_account her_house story 1 ≡ shown_here ∷ come_there ∷ come_to_all ∷ come_there ∷ [] }
    ensures counted { counted her_house story 1 ≡ shown_here ∷ come_there ∷ come_to_all ∷ come_there ∷ [] }
    ensures acted { acted her_house story 1 ≡ here ∷ to_phone ∷ [] }
    ensures in_turn { InTurn (after her_house (come ++ until_cut ++ back)) 2 3 0 }
    ensures can { can_resume her_house (come ++ until_cut ++ back) 0 (Some her_id) ≡ true }
    ensures swept { (session_in her_house story 2).hold ≡ Gone }
{}

/// A client that is cut in the middle of a room's talk, whose other session has the same nick: the talk is legal, of stanzas that a stream
/// can bring, and the client counts. What it handled of its stay, over both connections, is the whole run of the room's order, without a gap:
/// both entrances, the message before its connection was lost, and the one while it was away.
pub fn the_talk_is_told()
    ensures sent { AreSaid }
    ensures legal { Legal her_house talk }
    ensures account { IsAccountOf her_reading her_house talk 1 }
    ensures lines { lines her_house talk 1 ≡ 1 ∷ 3 ∷ [] }
    ensures before { carried her_house talk 1 1 ≡ desk_enters ∷ no_subject ∷ phone_enters ∷ said 2 ∷ [] }
    ensures again { carried her_house talk 1 3 ≡ said 2 ∷ said 3 ∷ [] }
    ensures handled { handled her_reading her_house talk 1 ≡ desk_enters ∷ no_subject ∷ phone_enters ∷ said 2 ∷ said 3 ∷ [] }
    ensures counted { counted her_house talk 1 ≡ desk_enters ∷ no_subject ∷ phone_enters ∷ said 2 ∷ said 3 ∷ [] }
    ensures heard { live_of 1 (handled her_reading her_house talk 1) ≡ desk_enters ∷ phone_enters ∷ said 2 ∷ said 3 ∷ [] }
    ensures run { run_of her_house talk 1 1 ≡ desk_enters ∷ phone_enters ∷ said 2 ∷ said 3 ∷ [] }
    ensures seats { seats_in (after her_house talk).world.rooms ≡ (1 ∷ 2 ∷ []) ∷ [] }
{}
