//! Ports in memory.
ghost use Rattle.std.specs.Prelude.{◌≡◌, ◌≤◌, [], List, Some, Err, IfOk, OnErr, OnOk, All, length, map, take, drop};
ghost use Rattle.std.specs.Option.{option_copied};
ghost use Rattle.outside.specs.Devices.{Rose};
ghost use Rattle.outside.specs.Draws.{Draws};
ghost use Rattle.outside.specs.Plans.{planned};
ghost use Rattle.outside.specs.Polls.{placed, seat_at};
ghost use Rattle.outside.specs.Posts.{AreOpened, Each, Gathers, Hands, IsUnused, MemPost, PortsFill, Refuses, added, all_of, dice_faults_of, fits, opened};
ghost use Rattle.outside.specs.Posts.{pass_first, tapes_told, took_post, took_posts};
ghost use Rattle.outside.specs.Tapes.{Mark, shown};

use crate::clock::MemClock;
use crate::dice::{Dice, Filled, MemDice};
use crate::mem_poller::MemPoller;
use crate::plan::Plan;
use crate::poller::{PollPost, Sources};
use crate::ports::{ListenFault, Ports};
use stanza_tree::Text;
use std::alloc::{AllocError, Global};
use std::collections::VecDeque;
use std::marker::Model;
use std::mem;

/// Ports in memory, which hand out their posts in turn, keep the pollers that come back, and tell their tapes. The calls of
/// `pollers` and `fill` whose numbers, from 1, are among `fails` fail, and so does one of `pollers` for which too few posts
/// are left, or one of them has another number of places or of sources, or of `fill` at which the dice fail.
#[derive(Drop)]
pub struct MemPorts {
    plan: Plan,
    posts: VecDeque<PollPost<MemPoller, MemClock, MemDice>>,
    dice: MemDice,
    links: u64,
    dice_faults: u64,
    address: Option<Text>,
    back: Vec<MemPoller>,
    tells: bool,
}

impl Model for MemPorts {
    ghost use Rattle.std.specs.Prelude.{List, map, ◌-◌, vec_capacity, vec_len};
    ghost use Rattle.outside.specs.Posts.{Each, IsUnused, MemPost, PortsState, tapes_told};
    ghost use Rattle.outside.specs.Tapes.{Mark, told_where};

    ghost Value = { PortsState };

    ghost view = { λ p. record {
      plan = p.plan;
      left = p.posts.items;
      dice = p.dice;
      links = p.links;
      dice_faults = p.dice_faults;
      address = p.address;
      tapes = told_where (List (List (List Mark))) p.tells (map tapes_told p.back.items);
      room = vec_capacity p.back - vec_len p.back;
    } };

    ghost invariant = { λ p. Each MemPost IsUnused p.posts.items };
}

impl MemPorts {
    /// Ports that are to hand out these posts, whose pollers were not used, with room for so many pollers that come back.
    pub fn new(
        alloc: Global,
        posts: Vec<PollPost<MemPoller, MemClock, MemDice>>,
        dice: MemDice,
        fails: Vec<u64>,
        pollers: usize,
    ) -> Result<MemPorts, AllocError>
        requires { Each MemPost IsUnused posts.items }
        ensures { IfOk result (λ p. p ≡ record {
          plan = planned fails.items;
          left = posts.items;
          dice = dice;
          links = 0;
          dice_faults = 0;
          address = None;
          tapes = Some [];
          room = pollers;
        }) }
    {
        Ok(MemPorts {
            plan: Plan::new(fails),
            posts: VecDeque::from_vec(posts),
            dice,
            links: 0,
            dice_faults: 0,
            address: None,
            back: Vec::with_capacity(alloc, pollers)?,
            tells: true,
        })
    }

    /// The pollers that came back, or none where it doesn't tell their tapes.
    pub fn pollers_back(&self) -> &[MemPoller]
        ensures { map tapes_told result.now ≡ shown (List (List (List Mark))) self.now.tapes }
    {
        if self.tells {
            self.back.as_slice()
        } else {
            &[]
        }
    }

    /// How often they failed, the pollers that came back among them.
    pub fn faults(&self) -> u64
        ensures { result ≡ self.now.plan.faults }
    {
        self.plan.faults()
    }

    /// How many links the pollers handed out that came back.
    pub fn links(&self) -> u64
        ensures { result ≡ self.now.links }
    {
        self.links
    }

    /// How often the dice failed that came back.
    pub fn dice_faults(&self) -> u64
        ensures { result ≡ self.now.dice_faults }
    {
        self.dice_faults
    }

    /// The address of the pollers that were handed out last.
    pub fn address(&self) -> Option<&Text>
        ensures { option_copied result ≡ self.now.address }
    {
        self.address.as_ref()
    }

    /// Takes a post back.
    fn take_post(&mut self, post: PollPost<MemPoller, MemClock, MemDice>)
        ensures state { self.new ≡ took_post self.old post }
        ensures faults_kept { self.old.plan.faults ≤ self.new.plan.faults }
        ensures links_kept { self.old.links ≤ self.new.links }
        ensures dice_kept { self.old.dice_faults ≤ self.new.dice_faults }
    {
        let PollPost { poller, sources } = post;
        self.plan.add(poller.faults());
        self.links = self.links.saturating_add(poller.links());
        self.dice_faults = add_dice_faults(self.dice_faults, sources.as_slice());
        if self.back.len() == self.back.capacity() {
            self.tells = false;
            return;
        }
        self.tells = self.tells && poller.tells();
        self.back.push_reserved(poller);
    }

    fn take_posts(&mut self, posts: Vec<PollPost<MemPoller, MemClock, MemDice>>)
        ensures state { self.new ≡ took_posts self.old posts.items }
        ensures faults_kept { self.old.plan.faults ≤ self.new.plan.faults }
        ensures links_kept { self.old.links ≤ self.new.links }
        ensures dice_kept { self.old.dice_faults ≤ self.new.dice_faults }
    {
        for post in posts {
            self.take_post(post);
        }
    }
}

/// The count of dice faults with those of these places.
fn add_dice_faults(count: u64, sources: &[Sources<MemClock, MemDice>]) -> u64
    ensures kept { count ≤ result }
    ensures sum { result ≡ added count (dice_faults_of sources.now) }
{
    let mut count = count;
    for place in sources {
        count = count.saturating_add(place.dice.faults());
    }
    count
}

/// Whether a post has so many places, and sources for each.
fn fits(post: &PollPost<MemPoller, MemClock, MemDice>, places: u32) -> bool
    ensures { result ≡ fits places post.now }
{
    post.poller.has_places(places) && post.sources.len() == places as usize
}

/// Whether so many posts come first, and each fits.
fn all_fit(
    posts: &VecDeque<PollPost<MemPoller, MemClock, MemDice>>,
    count: usize,
    places: u32,
) -> bool
    ensures { result ≡ pass_first (fits places) count posts.now.items }
{
    for k in 0..count {
        match posts.get(k) {
            Some(post) => {
                if !fits(post, places) {
                    return false;
                }
            }
            None => return false,
        }
    }
    true
}

fn open(
    post: PollPost<MemPoller, MemClock, MemDice>,
    quota: u64,
) -> PollPost<MemPoller, MemClock, MemDice>
    ensures { result ≡ opened quota post }
{
    let mut post = post;
    post.poller.set_quota(quota);
    post
}

/// The first posts, each with this quota; or, where there is no memory for them, none.
fn hand_out(
    alloc: Global,
    posts: &mut VecDeque<PollPost<MemPoller, MemClock, MemDice>>,
    count: usize,
    quota: u64,
) -> Result<Vec<PollPost<MemPoller, MemClock, MemDice>>, AllocError>
    requires { count ≤ length posts.old.items }
    ensures ok { IfOk result (λ v. v.items ≡ map (opened quota) (take count posts.old.items)) }
    ensures left { OnOk result (posts.new.items ≡ drop count posts.old.items) }
    ensures err { OnErr result (posts.new.items ≡ posts.old.items) }
{
    let mut out = Vec::with_capacity(alloc, count)?;
    let rest = posts.split_off(count)?;
    let first = mem::replace(posts, rest);
    for post in first.into_vec() {
        out.push_reserved(open(post, quota));
    }
    Ok(out)
}

impl Ports for MemPorts {
    type Poller = MemPoller;

    type Clock = MemClock;

    type Dice = MemDice;

    ghost tapes = { λ p. p.tapes };

    ghost faults = { λ p. p.plan.faults };

    ghost links = { λ p. p.links };

    ghost dice_faults = { λ p. p.dice_faults };

    ghost address = { λ p. p.address };

    ghost drawn = { λ p. p.dice.drawn };

    fn pollers(
        &mut self,
        alloc: Global,
        at: &Text,
        workers: u32,
        places: u32,
        quota: u64,
    ) -> Result<Vec<PollPost<MemPoller, MemClock, MemDice>>, ListenFault>
        ensures posts { IfOk result (λ v. length v.items ≡ workers) }
        ensures sources { IfOk result (λ v. All (λ p. length p.sources.items ≡ places) v.items) }
        ensures opened { IfOk result (λ v. AreOpened places quota v.items) }
        ensures address { IfOk result (λ _. self.new.address ≡ Some at.now) }
        ensures kept { self.old.plan.faults ≤ self.new.plan.faults }
        ensures cause { result ≡ Err ListenFault.Failed → Rose self.old.plan.faults self.new.plan.faults }
        ensures as_before { result ≡ Err ListenFault.NoMemory → self.new ≡ self.old }
        ensures links { self.new.links ≡ self.old.links }
        ensures dice { self.new.dice_faults ≡ self.old.dice_faults }
        ensures tapes { self.new.tapes ≡ self.old.tapes }
        ensures drawn { self.new.dice.drawn ≡ self.old.dice.drawn }
        ensures hands { IfOk result (λ v. Hands self.old self.new at.now workers places quota v.items) }
        ensures refuses { result ≡ Err ListenFault.Failed → Refuses self.old self.new workers places }
    {
        let count = workers as usize;
        if self.plan.fails_next() || !all_fit(&self.posts, count, places) {
            self.plan.fail();
            return Err(ListenFault::Failed);
        }
        let address = at.copy(alloc)?;
        let posts = hand_out(alloc, &mut self.posts, count, quota)?;
        self.plan.call();
        self.address = Some(address);
        Ok(posts)
    }

    fn gather_pollers(&mut self, posts: Vec<PollPost<MemPoller, MemClock, MemDice>>)
        ensures faults { self.new.plan.faults ≡ added self.old.plan.faults (map (λ p. p.poller.plan.faults) posts.items) }
        ensures links { self.new.links ≡ added self.old.links (map (λ p. p.poller.links) posts.items) }
        ensures dice { self.new.dice_faults ≡ added self.old.dice_faults (all_of (map (λ p. map (λ s. s.dice.plan.faults) p.sources.items) posts.items)) }
        ensures faults_kept { self.old.plan.faults ≤ self.new.plan.faults }
        ensures links_kept { self.old.links ≤ self.new.links }
        ensures dice_kept { self.old.dice_faults ≤ self.new.dice_faults }
        ensures address { self.new.address ≡ self.old.address }
        ensures tapes { Gathers self.old.tapes (map (λ p. placed (length p.poller.places) (λ k. (seat_at p.poller.places k).tapes)) posts.items)
            self.new.tapes }
        ensures drawn { self.new.dice.drawn ≡ self.old.dice.drawn }
        ensures state { self.new ≡ took_posts self.old posts.items }
    {
        self.take_posts(posts);
    }

    #[tactic(auto, using(crate::proofs::Telling::tells_nothing))]
    fn fill(&mut self, into: &mut [u8]) -> Filled
        ensures drawn { Draws self.old.dice.drawn self.new.dice.drawn result into.new }
        ensures kept { self.old.plan.faults ≤ self.new.plan.faults }
        ensures cause { result ≡ Filled.Failed → Rose self.old.plan.faults self.new.plan.faults }
        ensures links { self.new.links ≡ self.old.links }
        ensures dice { self.new.dice_faults ≡ self.old.dice_faults }
        ensures address { self.new.address ≡ self.old.address }
        ensures tapes { self.new.tapes ≡ self.old.tapes }
        ensures fills { PortsFill self.old self.new result into.new }
    {
        if self.plan.fails_next() {
            self.plan.fail();
            return Filled::Failed;
        }
        let filled = self.dice.fill(into);
        match filled {
            Filled::Full => self.plan.call(),
            Filled::Failed => self.plan.fail(),
        }
        filled
    }
}
