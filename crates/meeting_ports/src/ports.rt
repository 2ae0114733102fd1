//! Ports of two workers whose links meet.

ghost use Rattle.std.specs.Prelude.{◌≡◌, ◌<◌, ◌≤◌, Err, IfOk, None, Some, All, length, map};
ghost use Rattle.outside.specs.Devices.{Rose};
ghost use Rattle.outside.specs.Posts.{added, all_of};
ghost use Rattle.meeting_ports.specs.Meetings.{AreOpened, fresh, took_post, took_posts};

use crate::link::MeetLink;
use crate::poller::MeetPoller;
use outside::{CleanDice, Dice, Filled, ListenFault, MemClock, PollPost, Ports, Sources};
use stanza_tree::Text;
use std::alloc::{AllocError, Global};
use std::marker::Model;
use std::sync::Arc;
use std::sync::atomic::AtomicU64;

/// What a worker has of the world.
pub type MeetPost = PollPost<MeetPoller, MemClock, CleanDice>;

/// Ports of two workers, whose links meet, and what came back. A worker's link stands at its first place.
#[derive(Drop)]
pub struct MeetPorts {
    first: Arc<AtomicU64, Global>,
    second: Arc<AtomicU64, Global>,
    dice: CleanDice,
    faults: u64,
    links: u64,
    address: Option<Text>,
    back: Vec<MeetPost>,
}

impl Model for MeetPorts {
    ghost use Rattle.meeting_ports.specs.Meetings.{PortsCounts};

    ghost Value = { PortsCounts };

    ghost view = { λ p. record { faults = p.faults; links = p.links; address = p.address } };
}

fn sources(alloc: Global, places: u32) -> Result<Vec<Sources<MemClock, CleanDice>>, AllocError>
    ensures { IfOk result (λ v. length v.items ≡ places) }
{
    let mut sources = Vec::new(alloc);
    for _k in 0..places {
        let clock = MemClock::new(alloc, Vec::new(alloc), 100)?;
        let dice = CleanDice::new(Vec::new(alloc));
        sources.push(Sources { clock, dice })?;
    }
    Ok(sources)
}

impl MeetPorts {
    /// Ports whose pollers nobody asked for.
    pub fn new(alloc: Global) -> Result<MeetPorts, AllocError>
        ensures { IfOk result (λ p. p ≡ record { faults = 0; links = 0; address = None }) }
    {
        Ok(MeetPorts {
            first: Arc::new(alloc, AtomicU64::new(0))?,
            second: Arc::new(alloc, AtomicU64::new(0))?,
            dice: CleanDice::new(Vec::new(alloc)),
            faults: 0,
            links: 0,
            address: None,
            back: Vec::new(alloc),
        })
    }

    /// The posts that came back.
    pub fn back(&self) -> &[MeetPost] {
        self.back.as_slice()
    }

    // The post of a worker. Those of other workers than the first two share a link's word with the second.
    fn post(
        &self,
        alloc: Global,
        worker: u32,
        places: u32,
        quota: u64,
    ) -> Result<MeetPost, AllocError>
        requires { 0 < places }
        ensures poller { IfOk result (λ p. p.poller ≡ fresh places quota) }
        ensures sources { IfOk result (λ p. length p.sources.items ≡ places) }
    {
        let (own, other) = if worker == 0 {
            (&self.first, &self.second)
        } else {
            (&self.second, &self.first)
        };
        let link = MeetLink::new(alloc, Arc::try_clone(own)?, Arc::try_clone(other)?);
        Ok(PollPost {
            poller: MeetPoller::new(link, places, quota),
            sources: sources(alloc, places)?,
        })
    }

    #[tactic(auto, using(crate::proofs::PostLemmas::opened_and_one))]
    fn open(
        &self,
        alloc: Global,
        workers: u32,
        places: u32,
        quota: u64,
    ) -> Result<Vec<MeetPost>, AllocError>
        requires { 0 < places }
        ensures count { IfOk result (λ v. length v.items ≡ workers) }
        ensures sources { IfOk result (λ v. All (λ p. length p.sources.items ≡ places) v.items) }
        ensures opened { IfOk result (λ v. AreOpened places quota v.items) }
    {
        let mut posts = Vec::new(alloc);
        for worker in 0..workers {
            posts.push(self.post(alloc, worker, places, quota)?)?;
        }
        Ok(posts)
    }

    fn count_post(&mut self, post: &MeetPost)
        ensures state { self.new ≡ took_post self.old post.now }
        ensures faults_kept { self.old.faults ≤ self.new.faults }
        ensures links_kept { self.old.links ≤ self.new.links }
    {
        self.faults = self.faults.saturating_add(post.poller.faults());
        self.links = self.links.saturating_add(post.poller.links());
    }

    fn keep(&mut self, posts: Vec<MeetPost>)
        ensures { self.new ≡ self.old }
    {
        self.back = posts;
    }

    fn count_posts(&mut self, posts: &[MeetPost])
        ensures state { self.new ≡ took_posts self.old posts.now }
        ensures faults_kept { self.old.faults ≤ self.new.faults }
        ensures links_kept { self.old.links ≤ self.new.links }
    {
        for post in posts {
            self.count_post(post);
        }
    }
}

impl Ports for MeetPorts {
    type Poller = MeetPoller;

    type Clock = MemClock;

    type Dice = CleanDice;

    ghost tapes = { λ _. None };

    ghost faults = { λ p. p.faults };

    ghost links = { λ p. p.links };

    ghost dice_faults = { λ _. 0 };

    ghost address = { λ p. p.address };

    ghost drawn = { λ _. None };

    /// Fails where there is no place for the links.
    fn pollers(
        &mut self,
        alloc: Global,
        at: &Text,
        workers: u32,
        places: u32,
        quota: u64,
    ) -> Result<Vec<MeetPost>, ListenFault>
        ensures posts { IfOk result (λ v. length v.items ≡ workers) }
        ensures sources { IfOk result (λ v. All (λ p. length p.sources.items ≡ places) v.items) }
        ensures opened { IfOk result (λ v. AreOpened places quota v.items) }
        ensures address { IfOk result (λ _. self.new.address ≡ Some at.now) }
        ensures kept { self.old.faults ≤ self.new.faults }
        ensures cause { result ≡ Err ListenFault.Failed → Rose self.old.faults self.new.faults }
        ensures as_before { result ≡ Err ListenFault.NoMemory → self.new ≡ self.old }
        ensures links { self.new.links ≡ self.old.links }
    {
        if places == 0 {
            self.faults = self.faults.saturating_add(1);
            return Err(ListenFault::Failed);
        }
        let address = at.copy(alloc)?;
        let posts = self.open(alloc, workers, places, quota)?;
        self.address = Some(address);
        Ok(posts)
    }

    fn gather_pollers(&mut self, posts: Vec<MeetPost>)
        ensures faults { self.new.faults ≡ added self.old.faults (map (λ p. p.poller.faults) posts.items) }
        ensures links { self.new.links ≡ added self.old.links (map (λ p. p.poller.links) posts.items) }
        ensures dice { 0 ≡ added 0 (all_of (map (λ p. map (λ _. 0) p.sources.items) posts.items)) }
        ensures faults_kept { self.old.faults ≤ self.new.faults }
        ensures links_kept { self.old.links ≤ self.new.links }
        ensures address { self.new.address ≡ self.old.address }
    {
        self.count_posts(posts.as_slice());
        self.keep(posts);
    }

    fn fill(&mut self, into: &mut [u8]) -> Filled
        ensures kept { self.old.faults ≤ self.new.faults }
        ensures cause { result ≡ Filled.Failed → Rose self.old.faults self.new.faults }
        ensures links { self.new.links ≡ self.old.links }
        ensures address { self.new.address ≡ self.old.address }
    {
        match self.dice.fill(into) {
            Filled::Full => Filled::Full,
            Filled::Failed => unreachable!(),
        }
    }
}
