//! The house as it stands under the lock.
ghost use Rattle.house_model.specs.Histories.{StandsFor};
ghost use Rattle.house_core.specs.Houses.{held};
ghost use Rattle.hall.specs.Openings.{opening_of, opening_from};

use crate::entry::{HouseTurn, Opening};
use ghost_log::GhostLog;
use house_core::House;
use turn_lock::Storied;

/// A house with the legal history that it stands for. It stands in a block of its own, so that a turn moves a pointer.
#[derive(Drop)]
pub struct Recorded {
    pub(crate) house: Box<House>,
    pub(crate) log: GhostLog<HouseTurn>,
    pub ghost stands: { ∥ StandsFor (opening_from (opening_of (held house.value))) log.entries (held house.value) ∥₁ },
}

impl Storied for Recorded {
    type Entry = HouseTurn;

    type Root = Opening;

    ghost use Rattle.house_model.specs.Histories.{line_of};
    ghost use Rattle.house_core.specs.Houses.{held};
    ghost use Rattle.hall.specs.Openings.{opening_of};

    ghost root = { λ r. opening_of (held r.house.value) };

    ghost story = { λ r. r.log.entries };

    ghost line = { λ x. line_of x.event };
}
