//! Ports over TCP.
ghost use Rattle.std.specs.Prelude.{◌≡◌, ◌≤◌, All, Err, None, Some, IfOk, length, map};
ghost use Rattle.outside.specs.Devices.{Rose};
ghost use Rattle.outside.specs.Posts.{added, all_of};
ghost use Rattle.outside_net.specs.Counts.{AreOpened, fresh_poller, took_post, took_posts};

use crate::beat::Beat;
use crate::bell::Bell;
use crate::open_fault::OpenFault;
use crate::places::Places;
use crate::system::{SystemClock, SystemDice};
use crate::tcp_link::Bells;
use crate::tcp_poller::TcpPoller;
use crate::watch::Watch;
use mio::Poll;
use mio::net::TcpListener;
use outside::{Filled, ListenFault, PollPost, Ports, Sources};
use stanza_tree::Text;
use std::alloc::Global;
use std::io::Eprint;
use std::marker::Model;
use std::net::{IpAddr, Ipv4Addr, Net, SocketAddr};
use std::random::RandomSource;
use std::sync::Arc;
use std::time::Clock;

/// What a worker has of the world.
pub type TcpPost<R> = PollPost<TcpPoller<R>, SystemClock<R>, SystemDice<R>>;

/// The clock and the dice of a place.
type NetSources<R> = Sources<SystemClock<R>, SystemDice<R>>;

/// Ports over TCP on this machine, with the system's clock and random bytes. They count their errors and what comes back
/// with the posts, and tell no tapes.
#[derive(Drop)]
pub struct NetPorts<R: Net + Clock + RandomSource + Eprint + Clone + Drop> {
    rt: R,
    faults: u64,
    links: u64,
    dice_faults: u64,
    address: Option<Text>,
}

impl<R: Net + Clock + RandomSource + Eprint + Clone + Drop> Model for NetPorts<R> {
    ghost use Rattle.outside_net.specs.Counts.{PortsCounts};

    ghost Value = { PortsCounts };

    ghost view = { λ p. record { faults = p.faults; links = p.links; dice_faults = p.dice_faults; address = p.address } };
}

impl<R: Net + Clock + RandomSource + Eprint + Clone + Drop> NetPorts<R> {
    /// Ports that have counted nothing. Each post gets a copy of the runtime.
    pub fn new(rt: R) -> NetPorts<R>
        ensures { result ≡ record { faults = 0; links = 0; dice_faults = 0; address = None } }
    {
        NetPorts {
            rt,
            faults: 0,
            links: 0,
            dice_faults: 0,
            address: None,
        }
    }

    fn count_fault(&mut self)
        ensures kept { self.old.faults ≤ self.new.faults }
        ensures rose { Rose self.old.faults self.new.faults }
        ensures links { self.new.links ≡ self.old.links }
        ensures dice { self.new.dice_faults ≡ self.old.dice_faults }
        ensures address { self.new.address ≡ self.old.address }
    {
        self.faults = self.faults.saturating_add(1);
    }

    fn take_post(&mut self, post: TcpPost<R>)
        ensures state { self.new ≡ took_post self.old post }
        ensures faults_kept { self.old.faults ≤ self.new.faults }
        ensures links_kept { self.old.links ≤ self.new.links }
        ensures dice_kept { self.old.dice_faults ≤ self.new.dice_faults }
    {
        let PollPost { poller, sources } = post;
        self.faults = self.faults.saturating_add(poller.faults());
        self.links = self.links.saturating_add(poller.links());
        self.dice_faults = add_dice_faults(self.dice_faults, sources.as_slice());
    }

    fn take_posts(&mut self, posts: Vec<TcpPost<R>>)
        ensures state { self.new ≡ took_posts self.old posts.items }
        ensures faults_kept { self.old.faults ≤ self.new.faults }
        ensures links_kept { self.old.links ≤ self.new.links }
        ensures dice_kept { self.old.dice_faults ≤ self.new.dice_faults }
    {
        for post in posts {
            self.take_post(post);
        }
    }
}

impl<R: Net + Clock + RandomSource + Eprint + Clone + Drop> Ports for NetPorts<R> {
    type Poller = TcpPoller<R>;

    type Clock = SystemClock<R>;

    type Dice = SystemDice<R>;

    ghost tapes = { λ _. None };

    ghost faults = { λ p. p.faults };

    ghost links = { λ p. p.links };

    ghost dice_faults = { λ p. p.dice_faults };

    ghost address = { λ p. p.address };

    ghost drawn = { λ _. None };

    /// The address is `127.0.0.1:PORT`; another is `Failed`, and so is one that the system refuses, as where the port is taken. Port 0
    /// is one that the system chooses. Line L is the place L % places of the worker L / places, for `ring`.
    fn pollers(
        &mut self,
        alloc: Global,
        address: &Text,
        workers: u32,
        places: u32,
        quota: u64,
    ) -> Result<Vec<TcpPost<R>>, ListenFault>
        ensures posts { IfOk result (λ v. length v.items ≡ workers) }
        ensures sources { IfOk result (λ v. All (λ p. length p.sources.items ≡ places) v.items) }
        ensures opened { IfOk result (λ v. AreOpened places quota v.items) }
        ensures address { IfOk result (λ _. self.new.address ≡ Some address.now) }
        ensures kept { self.old.faults ≤ self.new.faults }
        ensures cause { result ≡ Err ListenFault.Failed → Rose self.old.faults self.new.faults }
        ensures as_before { result ≡ Err ListenFault.NoMemory → self.new ≡ self.old }
        ensures links { self.new.links ≡ self.old.links }
        ensures dice { self.new.dice_faults ≡ self.old.dice_faults }
    {
        let copy = address.copy(alloc)?;
        match open_posts(&self.rt, alloc, address, workers, places, quota) {
            Ok(posts) => {
                self.address = Some(copy);
                Ok(posts)
            }
            Err(OpenFault::NoMemory) => Err(ListenFault::NoMemory),
            Err(OpenFault::System) => {
                self.count_fault();
                Err(ListenFault::Failed)
            }
        }
    }

    fn gather_pollers(&mut self, posts: Vec<TcpPost<R>>)
        ensures faults { self.new.faults ≡ added self.old.faults (map (λ p. p.poller.faults) posts.items) }
        ensures links { self.new.links ≡ added self.old.links (map (λ p. p.poller.places.links) posts.items) }
        ensures dice { self.new.dice_faults ≡ added self.old.dice_faults (all_of (map (λ p. map (λ s. s.dice) p.sources.items) posts.items)) }
        ensures faults_kept { self.old.faults ≤ self.new.faults }
        ensures links_kept { self.old.links ≤ self.new.links }
        ensures dice_kept { self.old.dice_faults ≤ self.new.dice_faults }
        ensures address { self.new.address ≡ self.old.address }
    {
        self.take_posts(posts);
    }

    fn fill(&mut self, into: &mut [u8]) -> Filled
        ensures kept { self.old.faults ≤ self.new.faults }
        ensures cause { result ≡ Filled.Failed → Rose self.old.faults self.new.faults }
        ensures links { self.new.links ≡ self.old.links }
        ensures dice { self.new.dice_faults ≡ self.old.dice_faults }
        ensures address { self.new.address ≡ self.old.address }
    {
        match self.rt.fill_bytes(into) {
            Ok(()) => Filled::Full,
            Err(_) => {
                self.count_fault();
                Filled::Failed
            }
        }
    }
}

/// The count of dice faults with those of these places.
fn add_dice_faults<R: Clock + RandomSource + Drop>(count: u64, sources: &[NetSources<R>]) -> u64
    ensures sum { result ≡ added count (map (λ s. s.dice) sources.now) }
    ensures kept { count ≤ result }
{
    let mut count = count;
    for place in sources {
        count = count.saturating_add(place.dice.faults());
    }
    count
}

/// The socket address of such a text.
fn loopback(address: &Text) -> Option<SocketAddr> {
    let address: SocketAddr = str::from_utf8(address.bytes()).ok()?.parse().ok()?;
    (address.ip() == IpAddr::V4(Ipv4Addr::LOCALHOST)).then_some(address)
}

/// So many polls, each with a bell that ends its waits.
fn make_bells<R: Net>(
    rt: &R,
    alloc: Global,
    workers: u32,
    places: u32,
) -> Result<(Vec<Poll>, Bells), OpenFault>
    ensures { IfOk result (λ r. length r.0.items ≡ workers) }
{
    let mut polls = Vec::new(alloc);
    let mut bells = Vec::new(alloc);
    for _worker in 0..workers {
        let poll = Poll::new(rt)?;
        bells.push(Bell::new(alloc, &poll, places)?)?;
        polls.push(poll)?;
    }
    Ok((polls, Bells { bells, places }))
}

/// A clock and dice for each place.
fn make_sources<R: Clock + RandomSource + Clone + Drop>(
    rt: &R,
    alloc: Global,
    places: u32,
) -> Result<Vec<NetSources<R>>, OpenFault>
    ensures { IfOk result (λ v. length v.items ≡ places) }
{
    let mut sources = Vec::new(alloc);
    for _place in 0..places {
        sources.push(Sources {
            clock: SystemClock::new(rt.clone()?),
            dice: SystemDice::new(rt.clone()?),
        })?;
    }
    Ok(sources)
}

/// A post at this poll.
fn make_post<R: Net + Clock + RandomSource + Eprint + Clone + Drop>(
    rt: &R,
    alloc: Global,
    listener: &Arc<TcpListener, Global>,
    poll: Poll,
    bells: &Arc<Bells, Global>,
    worker: u32,
    places: u32,
    quota: u64,
) -> Result<TcpPost<R>, OpenFault>
    ensures sources { IfOk result (λ p. length p.sources.items ≡ places) }
    ensures fresh { IfOk result (λ p. p.poller ≡ fresh_poller places quota) }
{
    let beat = Beat::new(rt.clone()?);
    let watch = Watch::new(alloc, poll, Arc::try_clone(bells)?, worker, beat)?;
    let seats = Places::new(alloc, places, quota)?;
    let poller = TcpPoller::new(rt.clone()?, Arc::try_clone(listener)?, watch, seats)?;
    let sources = make_sources(rt, alloc, places)?;
    Ok(PollPost { poller, sources })
}

/// A post at each of these polls.
fn make_posts<R: Net + Clock + RandomSource + Eprint + Clone + Drop>(
    rt: &R,
    alloc: Global,
    listener: &Arc<TcpListener, Global>,
    polls: Vec<Poll>,
    bells: &Arc<Bells, Global>,
    places: u32,
    quota: u64,
) -> Result<Vec<TcpPost<R>>, OpenFault>
    ensures count { IfOk result (λ v. length v.items ≡ length polls.items) }
    ensures sources { IfOk result (λ v. All (λ p. length p.sources.items ≡ places) v.items) }
    ensures opened { IfOk result (λ v. AreOpened places quota v.items) }
{
    let mut posts = Vec::new(alloc);
    let mut worker: u32 = 0;
    for poll in polls {
        posts.push(make_post(rt, alloc, listener, poll, bells, worker, places, quota)?)?;
        worker = worker.saturating_add(1);
    }
    Ok(posts)
}

fn open_posts<R: Net + Clock + RandomSource + Eprint + Clone + Drop>(
    rt: &R,
    alloc: Global,
    address: &Text,
    workers: u32,
    places: u32,
    quota: u64,
) -> Result<Vec<TcpPost<R>>, OpenFault>
    ensures count { IfOk result (λ v. length v.items ≡ workers) }
    ensures sources { IfOk result (λ v. All (λ p. length p.sources.items ≡ places) v.items) }
    ensures opened { IfOk result (λ v. AreOpened places quota v.items) }
{
    let address = loopback(address).ok_or(OpenFault::System)?;
    let listener = Arc::new(alloc, TcpListener::bind(rt, address)?)?;
    let (polls, bells) = make_bells(rt, alloc, workers, places)?;
    let bells = Arc::new(alloc, bells)?;
    make_posts(rt, alloc, &listener, polls, &bells, places, quota)
}
