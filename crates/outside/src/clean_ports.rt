//! Ports that never fail.
ghost use Rattle.std.specs.Prelude.{◌≡◌, ◌≤◌, None, Some, Err, IfOk, OnErr, OnOk, All, length, map, take, drop, replicate};
ghost use Rattle.std.specs.Option.{option_copied};
ghost use Rattle.outside.specs.Draws.{filled_up};
ghost use Rattle.outside.specs.Posts.{AreOpenedClean, CleanHands, CleanPost, Each, Finds, IsPlain, IsUnusedClean, added, all_of, fits_clean};
ghost use Rattle.outside.specs.Posts.{opened_clean, pass_first, plain_sources};

use crate::clean_poller::CleanPoller;
use crate::clock::MemClock;
use crate::dice::{CleanDice, Dice, Filled};
use crate::poller::{PollPost, Sources};
use crate::ports::{ListenFault, Ports};
use stanza_tree::Text;
use std::alloc::{AllocError, Global};
use std::collections::VecDeque;
use std::marker::Model;
use std::mem;

/// Ports that never fail but for want of memory. They hand out their posts in turn; and where too few are left, or one of them has another number
/// of places or of sources, posts whose links have ended, whose clocks say 0 and whose dice give zeros. The pollers that come back they neither keep
/// nor tell.
#[derive(Drop)]
pub struct CleanPorts {
    posts: VecDeque<PollPost<CleanPoller, MemClock, CleanDice>>,
    dice: CleanDice,
    links: u64,
    address: Option<Text>,
}

impl Model for CleanPorts {
    ghost use Rattle.outside.specs.Posts.{CleanPortsState, CleanPost, Each, IsUnusedClean};

    ghost Value = { CleanPortsState };

    ghost view = { λ p. record { left = p.posts.items; dice = p.dice; links = p.links; address = p.address } };

    ghost invariant = { λ p. Each CleanPost IsUnusedClean p.posts.items };
}

impl CleanPorts {
    /// Ports that are to hand out these posts, whose pollers were not used. Takes no memory.
    pub fn new(
        posts: Vec<PollPost<CleanPoller, MemClock, CleanDice>>,
        dice: CleanDice,
    ) -> CleanPorts
        requires { Each CleanPost IsUnusedClean posts.items }
        ensures { result ≡ record { left = posts.items; dice = dice; links = 0; address = None } }
    {
        CleanPorts {
            posts: VecDeque::from_vec(posts),
            dice,
            links: 0,
            address: None,
        }
    }

    /// How many links the pollers handed out that came back.
    pub fn links(&self) -> u64
        ensures { result ≡ self.now.links }
    {
        self.links
    }

    /// The address of the pollers that were handed out last.
    pub fn address(&self) -> Option<&Text>
        ensures { option_copied result ≡ self.now.address }
    {
        self.address.as_ref()
    }
}

/// Whether a post has so many places, and sources for each.
fn fits(post: &PollPost<CleanPoller, MemClock, CleanDice>, places: u32) -> bool
    ensures { result ≡ fits_clean places post.now }
{
    post.poller.has_places(places) && post.sources.len() == places as usize
}

/// Whether so many posts come first, and each fits.
fn all_fit(
    posts: &VecDeque<PollPost<CleanPoller, MemClock, CleanDice>>,
    count: usize,
    places: u32,
) -> bool
    ensures { result ≡ pass_first (fits_clean places) count posts.now.items }
{
    for k in 0..count {
        match posts.get(k) {
            Some(post) => {
                if !fits(post, places) {
                    return false;
                }
            }
            None => return false,
        }
    }
    true
}

fn open(
    post: PollPost<CleanPoller, MemClock, CleanDice>,
    quota: u64,
) -> PollPost<CleanPoller, MemClock, CleanDice>
    ensures { result ≡ opened_clean quota post }
{
    let mut post = post;
    post.poller.set_quota(quota);
    post
}

/// The first posts, each with this quota; or, where there is no memory for them, none.
fn hand_out(
    alloc: Global,
    posts: &mut VecDeque<PollPost<CleanPoller, MemClock, CleanDice>>,
    count: usize,
    quota: u64,
) -> Result<Vec<PollPost<CleanPoller, MemClock, CleanDice>>, AllocError>
    requires { count ≤ length posts.old.items }
    ensures ok { IfOk result (λ v. v.items ≡ map (opened_clean quota) (take count posts.old.items)) }
    ensures left { OnOk result (posts.new.items ≡ drop count posts.old.items) }
    ensures err { OnErr result (posts.new.items ≡ posts.old.items) }
{
    let mut out = Vec::with_capacity(alloc, count)?;
    let rest = posts.split_off(count)?;
    let first = mem::replace(posts, rest);
    for post in first.into_vec() {
        out.push_reserved(open(post, quota));
    }
    Ok(out)
}

/// Sources without a script. Takes no memory.
fn plain_place(alloc: Global) -> Sources<MemClock, CleanDice>
    ensures { result ≡ plain_sources }
{
    Sources {
        clock: MemClock::blank(alloc),
        dice: CleanDice::new(Vec::new(alloc)),
    }
}

fn plain_places(alloc: Global, places: u32) -> Result<Vec<Sources<MemClock, CleanDice>>, AllocError>
    ensures { IfOk result (λ v. v.items ≡ replicate places plain_sources) }
{
    let mut sources = Vec::with_capacity(alloc, places as usize)?;
    for _k in 0..places {
        sources.push_reserved(plain_place(alloc));
    }
    Ok(sources)
}

/// A post without a script.
fn plain(
    alloc: Global,
    places: u32,
    quota: u64,
) -> Result<PollPost<CleanPoller, MemClock, CleanDice>, AllocError>
    ensures { IfOk result (IsPlain places quota) }
{
    let sources = plain_places(alloc, places)?;
    let mut poller = CleanPoller::new(alloc, places, Vec::new(alloc))?;
    poller.set_quota(quota);
    Ok(PollPost { poller, sources })
}

/// So many posts without a script.
fn plain_posts(
    alloc: Global,
    workers: u32,
    places: u32,
    quota: u64,
) -> Result<Vec<PollPost<CleanPoller, MemClock, CleanDice>>, AllocError>
    ensures count { IfOk result (λ v. length v.items ≡ workers) }
    ensures plain { IfOk result (λ v. All (IsPlain places quota) v.items) }
{
    let mut posts = Vec::new(alloc);
    for _k in 0..workers {
        posts.push(plain(alloc, places, quota)?)?;
    }
    Ok(posts)
}

/// The first posts, where there are enough and each fits, or else plain ones; or, where there is no memory for them, none.
fn find_posts(
    alloc: Global,
    posts: &mut VecDeque<PollPost<CleanPoller, MemClock, CleanDice>>,
    workers: u32,
    places: u32,
    quota: u64,
) -> Result<Vec<PollPost<CleanPoller, MemClock, CleanDice>>, AllocError>
    ensures finds { IfOk result (λ v. Finds posts.old.items posts.new.items workers places quota v.items) }
    ensures err { OnErr result (posts.new.items ≡ posts.old.items) }
{
    if all_fit(posts, workers as usize, places) {
        hand_out(alloc, posts, workers as usize, quota)
    } else {
        plain_posts(alloc, workers, places, quota)
    }
}

/// The count of links with those of these pollers.
fn add_links(links: u64, posts: Vec<PollPost<CleanPoller, MemClock, CleanDice>>) -> u64
    ensures kept { links ≤ result }
    ensures sum { result ≡ added links (map (λ p. p.poller.links) posts.items) }
{
    let mut links = links;
    for post in posts {
        links = links.saturating_add(post.poller.links());
    }
    links
}

impl Ports for CleanPorts {
    type Poller = CleanPoller;

    type Clock = MemClock;

    type Dice = CleanDice;

    ghost tapes = { λ _. None };

    ghost faults = { λ _. 0 };

    ghost links = { λ p. p.links };

    ghost dice_faults = { λ _. 0 };

    ghost address = { λ p. p.address };

    ghost drawn = { λ _. None };

    fn pollers(
        &mut self,
        alloc: Global,
        at: &Text,
        workers: u32,
        places: u32,
        quota: u64,
    ) -> Result<Vec<PollPost<CleanPoller, MemClock, CleanDice>>, ListenFault>
        ensures posts { IfOk result (λ v. length v.items ≡ workers) }
        ensures sources { IfOk result (λ v. All (λ p. length p.sources.items ≡ places) v.items) }
        ensures opened { IfOk result (λ v. AreOpenedClean places quota v.items) }
        ensures address { IfOk result (λ _. self.new.address ≡ Some at.now) }
        ensures never { result ≡ Err ListenFault.Failed → ⊥ }
        ensures as_before { result ≡ Err ListenFault.NoMemory → self.new ≡ self.old }
        ensures links { self.new.links ≡ self.old.links }
        ensures handed { IfOk result (λ v. CleanHands self.old self.new at.now workers places quota v.items) }
    {
        let address = at.copy(alloc)?;
        let posts = find_posts(alloc, &mut self.posts, workers, places, quota)?;
        self.address = Some(address);
        Ok(posts)
    }

    #[tactic(auto, using(crate::proofs::Adding::added_nothing))]
    fn gather_pollers(&mut self, posts: Vec<PollPost<CleanPoller, MemClock, CleanDice>>)
        ensures links_kept { self.old.links ≤ self.new.links }
        ensures faults { 0 ≡ added 0 (map (λ _. 0) posts.items) }
        ensures dice { 0 ≡ added 0 (all_of (map (λ p. map (λ _. 0) p.sources.items) posts.items)) }
        ensures state { self.new ≡ record self.old { links = added self.old.links (map (λ p. p.poller.links) posts.items) } }
    {
        self.links = add_links(self.links, posts);
    }

    fn fill(&mut self, into: &mut [u8]) -> Filled
        ensures full { result ≡ Filled.Full }
        ensures bytes { into.new ≡ filled_up self.old.dice (length into.old) }
        ensures state { self.new ≡ record self.old { dice = drop (length into.old) self.old.dice } }
    {
        self.dice.fill(into)
    }
}
