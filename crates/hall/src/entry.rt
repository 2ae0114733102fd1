//! What the history under the lock is made of. Nothing here exists when the program runs.
ghost use Rattle.std.specs.Prelude.{ℕ, List};
ghost use Rattle.std.specs.Coded.{codes};
ghost use Rattle.jid_core.specs.Addresses.{Address};
ghost use Rattle.stanza_tree.specs.contracts.node.Node as node;
ghost use Rattle.house_model.specs.Histories.{Turn};
ghost use Rattle.hall.specs.Openings.{OpeningRecord};

use std::marker::Model;

/// One turn of the house. No value of it is ever made.
pub struct HouseTurn {
    ghost turn: { Turn } by { Prim.hlevel (codes, node.the_row.coded) },
}

impl Model for HouseTurn {
    ghost use Rattle.std.specs.Borrow.{ftrue};
    ghost use Rattle.std.specs.Coded.{codes};
    ghost use Rattle.stanza_tree.specs.contracts.node.Node as node;
    ghost use Rattle.house_model.specs.Histories.{Turn};

    ghost Value = { Turn };

    ghost coded = { Prim.hlevel (codes, node.the_row.coded) };

    ghost view = { λ x. x.turn };

    ghost also_owns = { λ _. ftrue };
}

/// What a house was opened with. No value of it is ever made.
pub struct Opening {
    ghost opened: { OpeningRecord },
}

impl Model for Opening {
    ghost use Rattle.std.specs.Borrow.{ftrue};
    ghost use Rattle.hall.specs.Openings.{OpeningRecord};

    ghost Value = { OpeningRecord };

    ghost view = { λ x. x.opened };

    ghost also_owns = { λ _. ftrue };
}
