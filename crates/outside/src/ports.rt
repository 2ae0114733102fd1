//! Where workers get their pollers, clocks and dice. Ports count their faults, the links of their pollers, and the faults of
//! their dice.
ghost use Rattle.std.specs.Prelude.{◌≡◌, ℕ, ◌≤◌, List, Option, Some, All, IfOk, Err, length, map};
ghost use Rattle.outside.specs.Devices.{Rose};
ghost use Rattle.outside.specs.Draws.{Draws};
ghost use Rattle.outside.specs.Polls.{IsOpened, placed};
ghost use Rattle.outside.specs.Posts.{Gathers, added, all_of};
ghost use Rattle.outside.specs.Tapes.{Mark};

use crate::clock::Clock;
use crate::dice::{Dice, Filled};
use crate::poller::{PollPost, Poller};
use stanza_tree::Text;
use std::alloc::{AllocError, Global};

/// Why there are no posts.
#[derive(Clone, Copy, Debug, PartialEq, Eq)]
pub enum ListenFault {
    /// There was no memory for them.
    NoMemory,
    Failed,
}

impl From<AllocError> for ListenFault {
    ghost use Rattle.outside.specs.declared.ports.ListenFault.TheVariants as fault;

    ghost from_gives = { λ _ f. f ≡ fault.NoMemory };

    fn from(_error: AllocError) -> ListenFault {
        ListenFault::NoMemory
    }
}

/// Ports hand out posts and take them back. They may tell the tapes of the pollers that were given back, post by post and place by place.
pub trait Ports {
    type Poller: Poller;

    type Clock: Clock;

    type Dice: Dice;

    ghost tapes: { Self → Option (List (List (List (List Mark)))) };

    ghost faults: { Self → ℕ };

    ghost links: { Self → ℕ };

    ghost dice_faults: { Self → ℕ };

    /// The address of the pollers that were handed out last.
    ghost address: { Self → Option (List ℕ) };

    /// What they drew by `fill`, where they tell it.
    ghost drawn: { Self → Option (List (List ℕ)) };

    /// As many posts as workers, whose pollers stand at this address, and each has so many places and this quota.
    fn pollers(
        &mut self,
        alloc: Global,
        at: &Text,
        workers: u32,
        places: u32,
        quota: u64,
    ) -> Result<Vec<PollPost<Self::Poller, Self::Clock, Self::Dice>>, ListenFault>
        ensures posts { IfOk result (λ v. length v.items ≡ workers) }
        ensures sources { IfOk result (λ v. All (λ p. length p.sources.items ≡ places) v.items) }
        ensures opened { IfOk result (λ v. All (λ p. IsOpened Self.Poller Self.Poller.places Self.Poller.quota Self.Poller.faults Self.Poller.links
            Self.Poller.taken Self.Poller.came Self.Poller.tapes places quota p.poller) v.items) }
        ensures address { IfOk result (λ _. address self.new ≡ Some at.now) }
        ensures kept { faults self.old ≤ faults self.new }
        ensures cause { result ≡ Err ListenFault.Failed → Rose (faults self.old) (faults self.new) }
        ensures as_before { result ≡ Err ListenFault.NoMemory → faults self.new ≡ faults self.old }
        ensures links { links self.new ≡ links self.old }
        ensures dice { dice_faults self.new ≡ dice_faults self.old }
        ensures tapes { tapes self.new ≡ tapes self.old }
        ensures drawn { drawn self.new ≡ drawn self.old };

    /// Takes posts back, with what they counted and told. Takes no memory.
    fn gather_pollers(&mut self, posts: Vec<PollPost<Self::Poller, Self::Clock, Self::Dice>>)
        ensures faults { faults self.new ≡ added (faults self.old) (map (λ p. Self.Poller.faults p.poller) posts.items) }
        ensures links { links self.new ≡ added (links self.old) (map (λ p. Self.Poller.links p.poller) posts.items) }
        ensures dice { dice_faults self.new ≡ added (dice_faults self.old)
            (all_of (map (λ p. map (λ s. Self.Dice.faults s.dice) p.sources.items) posts.items)) }
        ensures faults_kept { faults self.old ≤ faults self.new }
        ensures links_kept { links self.old ≤ links self.new }
        ensures dice_kept { dice_faults self.old ≤ dice_faults self.new }
        ensures address { address self.new ≡ address self.old }
        ensures tapes { Gathers (tapes self.old) (map (λ p. placed (Self.Poller.places p.poller) (Self.Poller.tapes p.poller)) posts.items)
            (tapes self.new) }
        ensures drawn { drawn self.new ≡ drawn self.old };

    /// Draws random bytes.
    fn fill(&mut self, into: &mut [u8]) -> Filled
        ensures drawn { Draws (drawn self.old) (drawn self.new) result into.new }
        ensures kept { faults self.old ≤ faults self.new }
        ensures cause { result ≡ Filled.Failed → Rose (faults self.old) (faults self.new) }
        ensures links { links self.new ≡ links self.old }
        ensures dice { dice_faults self.new ≡ dice_faults self.old }
        ensures address { address self.new ≡ address self.old }
        ensures tapes { tapes self.new ≡ tapes self.old };
}
