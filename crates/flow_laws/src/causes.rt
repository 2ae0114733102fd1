//! How a connection ends has a cause among its moves.

ghost use Rattle.std.specs.Prelude.{◌≡◌, ◌⊎◌, ℕ, List, [], ◌∷◌};
ghost use Rattle.conn_asks.specs.declared.ended.Ended.{Ended};
ghost use Rattle.conn_asks.specs.declared.ended.Ended.TheVariants as ended;
ghost use Rattle.conn_flow.specs.Moves.{Move};
ghost use Rattle.conn_flow.specs.Duties.{Duty, Left, Site};
ghost use Rattle.conn_flow.specs.Following.{GoesThrough, opening};
ghost use Rattle.flow_laws.specs.Causes.{IsCaused, IsForced, MakesNone};

/// Some move of a connection makes its end: the close tag, a fault of the stream, a header or an item, the third failed login, a minute
/// without a login, an hour without a byte, a reply of the house, an end or a fault of its link, a fault of the dice, no turn or no memory.
pub fn each_end_has_its_cause()
    ensures { (o : Site) (opened : ℕ) (moves : List Move) (last : Duty) (x : Ended)
        → GoesThrough o (opening o opened) moves last → last.due ≡ Left x ∷ [] → IsCaused o opened moves x }
{}

/// A connection that nothing else ends is closed by its client, or memory was wanting: where no item is refused, no login fails for the third
/// time, no minute passes without a login and no hour without a byte, no reply ends it, neither link nor dice fail, the link isn't at its end,
/// and turns are left.
pub fn what_nothing_else_ends_is_closed()
    ensures { (o : Site) (opened : ℕ) (moves : List Move) (last : Duty) (x : Ended)
        → GoesThrough o (opening o opened) moves last → last.due ≡ Left x ∷ []
        → ((y : Ended) → IsForced y → MakesNone o opened moves y) → (x ≡ ended.Closed) ⊎ (x ≡ ended.NoMemory) }
{}
