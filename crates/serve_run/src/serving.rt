//! The run of a server.

ghost use Rattle.std.specs.Prelude.{◌≡◌, ◌≢◌, ◌⊎◌, ◌<◌, ◌≤◌, ◌*◌, ◌++◌, ◌∷◌, [], ℕ, List, All, Err, IfErr, IfOk, Ok};
ghost use Rattle.std.specs.Prelude.{OnErr, OnOk, Some, false, length, map};
ghost use Rattle.account_book.specs.Entries.{entry_of};
ghost use Rattle.account_book.specs.declared.fault.LineKind.{LineKind};
ghost use Rattle.house_core.specs.Houses.{held};
ghost use Rattle.house_model.specs.Histories.{StandsFor};
ghost use Rattle.house_model.specs.States.{State};
ghost use Rattle.outside.specs.Devices.{Rose};
ghost use Rattle.outside.specs.Tapes.{Tells};
ghost use Rattle.conn_staff.specs.Staffs.{Staffed, post_told};
ghost use Rattle.script_play.specs.Runs.{Front};
ghost use Rattle.serve_run.specs.Services.{CameShort, DrewAtMostOne, IsRefused, LeftUnserved, ListeningFailed, Ran, ReadsList, Refused};
ghost use Rattle.serve_run.specs.Services.{Served, ServedBy, Unserved, address_at, entries_for, opening_for, tally};

use crate::list::read_list;
use crate::opening::{accounts_of, hash_key, house_of, secret_of};
use crate::report::print_report;
use account_book::Accounts;
use conn_staff::{Worked, serve_posts};
use house_core::House;
use jid_core::Jid;
use outside::{Clock, Dice, ListenFault, PollPost, Poller, Ports, Sink, Source};
use script_play::Status;
use stanza_tree::{NoMemory, Text};
use std::alloc::Global;
use std::sync::Wait;
use std::thread::Threads;

/// What a server is to serve.
#[derive(Drop)]
pub struct Serving {
    /// The domain, prepared, without a local part or a resource.
    pub domain: Jid,
    /// The port at 127.0.0.1.
    pub port: u16,
    /// How many workers there are.
    pub workers: u32,
    /// How many connections each worker serves at once.
    pub links: u32,
    /// How many connections each worker serves in all; 0 is without end.
    pub connections: u64,
    /// Whether nothing is to be noted of how connections end.
    pub quiet: bool,
    /// How many sessions there may be in all, those among them whose connection was lost and that wait to be resumed.
    pub sessions: u32,
}

/// Where the server listens.
fn address_of(alloc: Global, port: u16) -> Result<Text, NoMemory>
    ensures { IfOk result (λ text. text ≡ address_at port) }
{
    Ok(Text::of_string(format!(in alloc; "127.0.0.1:{port}")?))
}

/// The accounts of a list, and a house for their users, with a line for each place.
fn open<P: Ports>(
    alloc: Global,
    serving: &Serving,
    list: &[u8],
    ports: &mut P,
) -> Result<(Accounts, House), Status>
    requires few { serving.now.workers * serving.now.links ≤ 16384 }
    ensures kept { P.faults ports.old ≤ P.faults ports.new }
    ensures same { tally (P.tapes ports.new) (P.links ports.new) (P.dice_faults ports.new) (P.address ports.new) (P.drawn ports.old)
        ≡ tally (P.tapes ports.old) (P.links ports.old) (P.dice_faults ports.old) (P.address ports.old) (P.drawn ports.old) }
    ensures drew { IfOk result (λ r. Tells (List ℕ) (P.drawn ports.old) (P.drawn ports.new) (r.0.secret ∷ [])) }
    ensures long { IfOk result (λ r. length r.0.secret ≡ 32) }
    ensures unused { OnErr result (DrewAtMostOne (P.drawn ports.old) (P.drawn ports.new)) }
    ensures read { IfOk result (λ r. entries_for serving.now.sessions list.now ≡ Ok (map entry_of r.0.accounts)) }
    ensures new { IfOk result (λ r. StandsFor (opening_for serving.now r.0) [] (held r.1)) }
    ensures lines { IfOk result (λ r. length r.1.table.lines ≡ serving.now.workers * serving.now.links) }
    ensures refused { IfErr result (λ s. Refused serving.now.sessions list.now s (Rose (P.faults ports.old) (P.faults ports.new))) }
{
    let secret = secret_of(ports)?;
    let key = hash_key(&secret);
    let accounts = accounts_of(alloc, list, secret, key, serving.sessions)?;
    let lines = serving.workers * serving.links;
    let house = house_of(
        alloc,
        &serving.domain,
        &accounts,
        lines,
        serving.sessions,
        key,
    )?;
    Ok((accounts, house))
}

/// Workers at a house, until each poller shut or failed.
fn attend<
    R: Threads + Wait + Sync,
    P: Poller + Send + Drop,
    C: Clock + Send + Drop,
    I: Dice + Send + Drop,
>(
    rt: &R,
    alloc: Global,
    serving: &Serving,
    house: House,
    accounts: &Accounts,
    posts: Vec<PollPost<P, C, I>>,
) -> (Vec<PollPost<P, C, I>>, Result<(House, Worked), Status>)
where
    P::Link: Send + Drop,
    requires some { (0 < serving.now.workers) × (0 < serving.now.links) }
    requires few { serving.now.workers * serving.now.links ≤ 16384 }
    requires posts { length posts.items ≡ serving.now.workers }
    requires pollers { All (λ p. P.places p.poller ≡ serving.now.links) posts.items }
    requires sources { All (λ p. length p.sources.items ≡ serving.now.links) posts.items }
    requires free { All (λ p. (k : ℕ) → P.taken p.poller k ≡ false) posts.items }
    requires lines { serving.now.workers * serving.now.links ≡ length house.table.lines }
    requires new { (o : State) × StandsFor o [] (held house) }
    ensures served { IfOk result.1 (λ left. (o : State) → StandsFor o [] (held house) → Staffed o accounts.now
        (map (post_told P C I P.tapes P.came P.links P.faults P.quota C.told I.drawn I.faults) posts.items)
        (map (post_told P C I P.tapes P.came P.links P.faults P.quota C.told I.drawn I.faults) result.0.items) left.1 (held left.0)) }
    ensures refused { IfErr result.1 (λ s. s ≡ Status.NoMemory) }
    ensures back { IfErr result.1 (λ _. result.0.items ≡ posts.items) }
    ensures wide { All (λ p. P.places p.poller ≡ length p.sources.items) result.0.items }
{
    let (workers, links) = (serving.workers, serving.links);
    let (back, left) = serve_posts(
        rt,
        alloc,
        house,
        accounts,
        posts,
        workers,
        links,
        serving.quiet,
    );
    match left {
        Ok(left) => (back, Ok(left)),
        Err(NoMemory) => (back, Err(Status::NoMemory)),
    }
}

/// Serves at posts over a list of accounts. The posts come back, with the house that all workers left; or as they were, where nothing was served.
fn serve_list<R: Threads + Wait + Sync, P: Ports>(
    rt: &R,
    alloc: Global,
    serving: &Serving,
    list: &[u8],
    ports: &mut P,
    posts: Vec<PollPost<P::Poller, P::Clock, P::Dice>>,
) -> (
    Vec<PollPost<P::Poller, P::Clock, P::Dice>>,
    Result<(House, Worked), Status>,
)
where
    P::Poller: Send + Drop,
    <P::Poller as Poller>::Link: Send + Drop,
    P::Clock: Send + Drop,
    P::Dice: Send + Drop,
    requires some { (0 < serving.now.workers) × (0 < serving.now.links) }
    requires few { serving.now.workers * serving.now.links ≤ 16384 }
    requires posts { length posts.items ≡ serving.now.workers }
    requires pollers { All (λ p. P.Poller.places p.poller ≡ serving.now.links) posts.items }
    requires sources { All (λ p. length p.sources.items ≡ serving.now.links) posts.items }
    requires free { All (λ p. (k : ℕ) → P.Poller.taken p.poller k ≡ false) posts.items }
    ensures kept { P.faults ports.old ≤ P.faults ports.new }
    ensures same { tally (P.tapes ports.new) (P.links ports.new) (P.dice_faults ports.new) (P.address ports.new) (P.drawn ports.old)
        ≡ tally (P.tapes ports.old) (P.links ports.old) (P.dice_faults ports.old) (P.address ports.old) (P.drawn ports.old) }
    ensures served { IfOk result.1 (λ left. ServedBy left.1 serving.now list.now (P.drawn ports.old) (P.drawn ports.new)
        (map (post_told P.Poller P.Clock P.Dice P.Poller.tapes P.Poller.came P.Poller.links P.Poller.faults P.Poller.quota P.Clock.told P.Dice.drawn P.Dice.faults)
        posts.items)
        (map (post_told P.Poller P.Clock P.Dice P.Poller.tapes P.Poller.came P.Poller.links P.Poller.faults P.Poller.quota P.Clock.told P.Dice.drawn P.Dice.faults)
        result.0.items) (held left.0)) }
    ensures unused { OnErr result.1 (DrewAtMostOne (P.drawn ports.old) (P.drawn ports.new)) }
    ensures refused { IfErr result.1 (λ s. Refused serving.now.sessions list.now s (Rose (P.faults ports.old) (P.faults ports.new))) }
    ensures back { IfErr result.1 (λ _. result.0.items ≡ posts.items) }
    ensures wide { All (λ p. P.Poller.places p.poller ≡ length p.sources.items) result.0.items }
{
    match open(alloc, serving, list, ports) {
        Ok((accounts, house)) => attend(rt, alloc, serving, house, &accounts, posts),
        Err(status) => (posts, Err(status)),
    }
}

/// What listening failed with, as a status.
fn status_of(fault: ListenFault) -> Status
    ensures failed { result ≡ Status.ListenFault → fault ≡ ListenFault.Failed }
    ensures others { (result ≡ Status.ListenFault) ⊎ (result ≡ Status.NoMemory) }
{
    match fault {
        ListenFault::NoMemory => Status::NoMemory,
        ListenFault::Failed => Status::ListenFault,
    }
}

/// Serves at the ports over a list of accounts. The house that all workers left, and whether a poller failed; or why nothing was served.
fn serve_ports<R: Threads + Wait + Sync, P: Ports>(
    rt: &R,
    alloc: Global,
    serving: &Serving,
    list: &[u8],
    ports: &mut P,
) -> Result<(House, Worked), Status>
where
    P::Poller: Send + Drop,
    <P::Poller as Poller>::Link: Send + Drop,
    P::Clock: Send + Drop,
    P::Dice: Send + Drop,
    requires some { (0 < serving.now.workers) × (0 < serving.now.links) }
    requires few { serving.now.workers * serving.now.links ≤ 16384 }
    ensures kept { P.faults ports.old ≤ P.faults ports.new }
    ensures served { IfOk result (λ left. (ran : Ran left.1 serving.now list.now
        (tally (P.tapes ports.old) (P.links ports.old) (P.dice_faults ports.old) (P.address ports.old) (P.drawn ports.old))
        (tally (P.tapes ports.new) (P.links ports.new) (P.dice_faults ports.new) (P.address ports.new) (P.drawn ports.new))) × (ran.kept ≡ held left.0)) }
    ensures failed { IfOk result (λ left. left.1 ≡ Worked.PollFault → Rose (P.faults ports.old) (P.faults ports.new)) }
    ensures refused { IfErr result (λ s. Refused serving.now.sessions list.now s (Rose (P.faults ports.old) (P.faults ports.new))) }
    ensures unserved { IfErr result (LeftUnserved serving.now
        (tally (P.tapes ports.old) (P.links ports.old) (P.dice_faults ports.old) (P.address ports.old) (P.drawn ports.old))
        (tally (P.tapes ports.new) (P.links ports.new) (P.dice_faults ports.new) (P.address ports.new) (P.drawn ports.new))) }
{
    let address = address_of(alloc, serving.port)?;
    let (workers, links) = (serving.workers, serving.links);
    match ports.pollers(alloc, &address, workers, links, serving.connections) {
        Ok(posts) => {
            let (posts, left) = serve_list(rt, alloc, serving, list, ports, posts);
            ports.gather_pollers(posts);
            left
        }
        Err(fault) => Err(status_of(fault)),
    }
}

/// Serves, and says how it ended.
fn run<R: Threads + Wait + Sync, S: Source, K: Sink, P: Ports>(
    rt: &R,
    alloc: Global,
    serving: &Serving,
    source: &mut S,
    sink: &mut K,
    ports: &mut P,
) -> Result<(), Status>
where
    P::Poller: Send + Drop,
    <P::Poller as Poller>::Link: Send + Drop,
    P::Clock: Send + Drop,
    P::Dice: Send + Drop,
    requires some { (0 < serving.now.workers) × (0 < serving.now.links) }
    requires few { serving.now.workers * serving.now.links ≤ 16384 }
    ensures kept { P.faults ports.old ≤ P.faults ports.new }
    ensures served { OnOk result ((list : List ℕ) × (line : List ℕ) × ReadsList serving.now.sessions (S.left source.old) (S.left source.new) list
        × Served serving.now list
        (tally (P.tapes ports.old) (P.links ports.old) (P.dice_faults ports.old) (P.address ports.old) (P.drawn ports.old))
        (tally (P.tapes ports.new) (P.links ports.new) (P.dice_faults ports.new) (P.address ports.new) (P.drawn ports.new)) line
        × ((taken : List ℕ) → K.took sink.old ≡ Some taken → K.took sink.new ≡ Some (taken ++ line))) }
    ensures cut { IfErr result (λ s. s ≡ Status.WriteFault → (list : List ℕ) × (line : List ℕ) × ReadsList serving.now.sessions (S.left source.old) (S.left source.new) list
        × Served serving.now list
        (tally (P.tapes ports.old) (P.links ports.old) (P.dice_faults ports.old) (P.address ports.old) (P.drawn ports.old))
        (tally (P.tapes ports.new) (P.links ports.new) (P.dice_faults ports.new) (P.address ports.new) (P.drawn ports.new)) line
        × ((taken : List ℕ) → K.took sink.old ≡ Some taken → Front taken line (K.took sink.new))) }
    ensures silent { IfErr result (λ s. s ≢ Status.WriteFault → sink.new ≡ sink.old) }
    ensures accounts { IfErr result (λ s. (n : ℕ) → s ≡ Status.Accounts n → (list : List ℕ) × ReadsList serving.now.sessions (S.left source.old) (S.left source.new) list
        × IsRefused (entries_for serving.now.sessions list) s × Unserved serving.now
        (tally (P.tapes ports.old) (P.links ports.old) (P.dice_faults ports.old) (P.address ports.old) (P.drawn ports.old))
        (tally (P.tapes ports.new) (P.links ports.new) (P.dice_faults ports.new) (P.address ports.new) (P.drawn ports.new))) }
    ensures failed { IfErr result (λ s. s ≡ Status.ListenFault → (list : List ℕ) × ReadsList serving.now.sessions (S.left source.old) (S.left source.new) list
        × ListeningFailed serving.now list
        (tally (P.tapes ports.old) (P.links ports.old) (P.dice_faults ports.old) (P.address ports.old) (P.drawn ports.old))
        (tally (P.tapes ports.new) (P.links ports.new) (P.dice_faults ports.new) (P.address ports.new) (P.drawn ports.new))) }
    ensures short { IfErr result (λ s. s ≡ Status.NoMemory → CameShort (S.left source.old) (S.left source.new)
        serving.now
        (tally (P.tapes ports.old) (P.links ports.old) (P.dice_faults ports.old) (P.address ports.old) (P.drawn ports.old))
        (tally (P.tapes ports.new) (P.links ports.new) (P.dice_faults ports.new) (P.address ports.new) (P.drawn ports.new))) }
    ensures unread { IfErr result (λ s. s ≡ Status.ReadFault → ports.new ≡ ports.old) }
    ensures read { IfErr result (λ s. s ≡ Status.ReadFault → Rose (S.faults source.old) (S.faults source.new)) }
    ensures written { IfErr result (λ s. s ≡ Status.WriteFault → Rose (K.faults sink.old) (K.faults sink.new)) }
    ensures listened { IfErr result (λ s. s ≡ Status.ListenFault → Rose (P.faults ports.old) (P.faults ports.new)) }
    ensures usage { IfErr result (λ s. (s ≢ Status.Usage) × (s ≢ Status.Done) × ((n : ℕ) → s ≢ Status.Script n)) }
{
    let list = read_list(alloc, source, serving.sessions)?;
    let (house, worked) = serve_ports(rt, alloc, serving, list.as_slice(), ports)?;
    match worked {
        Worked::Shut => print_report(alloc, &house, sink),
        Worked::PollFault => Err(Status::ListenFault),
    }
}

/// Serves clients: reads the list of accounts from the source, to its end or past as many bytes as it may have; opens the ports at 127.0.0.1; serves what
/// comes, at each worker as many connections at once as it has places, until each poller handed out its connections or failed; and prints
/// `links L turns T`: how many connections came, and how many turns the house took. Unless it is to be quiet, it is noted how each connection ended. Never
/// returns if a poller hands out links for ever, or a link goes on for ever.
///
/// With 512 sessions or fewer a list has at most 4,096 accounts and 8,388,608 bytes, and with more 65,536 and 33,554,432.
///
/// `Accounts` tells the first line at fault. `ReadFault`, `WriteFault` and `ListenFault` come only where the source, the sink, or the ports and their
/// pollers count a fault; what listens is given back to the ports in any case. At `WriteFault` the server ran to its end and a front of the line is
/// printed; at any other fault nothing is. At `ListenFault` either nothing was served, or the server served until each poller shut or failed; at
/// `NoMemory` nothing listened, or nothing was served, or the server ran to its end; and at `ReadFault` the ports are as they were.
pub fn serve<R: Threads + Wait + Sync, S: Source, K: Sink, P: Ports>(
    rt: &R,
    alloc: Global,
    serving: &Serving,
    source: &mut S,
    sink: &mut K,
    ports: &mut P,
) -> Status
where
    P::Poller: Send + Drop,
    <P::Poller as Poller>::Link: Send + Drop,
    P::Clock: Send + Drop,
    P::Dice: Send + Drop,
    requires some { (0 < serving.now.workers) × (0 < serving.now.links) }
    requires few { serving.now.workers * serving.now.links ≤ 16384 }
    ensures kept { P.faults ports.old ≤ P.faults ports.new }
    ensures served { result ≡ Status.Done → (list : List ℕ) × (line : List ℕ) × ReadsList serving.now.sessions (S.left source.old) (S.left source.new) list
        × Served serving.now list
        (tally (P.tapes ports.old) (P.links ports.old) (P.dice_faults ports.old) (P.address ports.old) (P.drawn ports.old))
        (tally (P.tapes ports.new) (P.links ports.new) (P.dice_faults ports.new) (P.address ports.new) (P.drawn ports.new)) line
        × ((taken : List ℕ) → K.took sink.old ≡ Some taken → K.took sink.new ≡ Some (taken ++ line)) }
    ensures cut { result ≡ Status.WriteFault → (list : List ℕ) × (line : List ℕ) × ReadsList serving.now.sessions (S.left source.old) (S.left source.new) list
        × Served serving.now list
        (tally (P.tapes ports.old) (P.links ports.old) (P.dice_faults ports.old) (P.address ports.old) (P.drawn ports.old))
        (tally (P.tapes ports.new) (P.links ports.new) (P.dice_faults ports.new) (P.address ports.new) (P.drawn ports.new)) line
        × ((taken : List ℕ) → K.took sink.old ≡ Some taken → Front taken line (K.took sink.new)) }
    ensures silent { result ≢ Status.Done → result ≢ Status.WriteFault → sink.new ≡ sink.old }
    ensures accounts { (n : ℕ) → result ≡ Status.Accounts n → (list : List ℕ) × ReadsList serving.now.sessions (S.left source.old) (S.left source.new) list
        × ((kind : LineKind) × (entries_for serving.now.sessions list ≡ Err (n, kind))) × Unserved serving.now
        (tally (P.tapes ports.old) (P.links ports.old) (P.dice_faults ports.old) (P.address ports.old) (P.drawn ports.old))
        (tally (P.tapes ports.new) (P.links ports.new) (P.dice_faults ports.new) (P.address ports.new) (P.drawn ports.new)) }
    ensures failed { result ≡ Status.ListenFault → (list : List ℕ) × ReadsList serving.now.sessions (S.left source.old) (S.left source.new) list
        × ListeningFailed serving.now list
        (tally (P.tapes ports.old) (P.links ports.old) (P.dice_faults ports.old) (P.address ports.old) (P.drawn ports.old))
        (tally (P.tapes ports.new) (P.links ports.new) (P.dice_faults ports.new) (P.address ports.new) (P.drawn ports.new)) }
    ensures short { result ≡ Status.NoMemory → CameShort (S.left source.old) (S.left source.new)
        serving.now
        (tally (P.tapes ports.old) (P.links ports.old) (P.dice_faults ports.old) (P.address ports.old) (P.drawn ports.old))
        (tally (P.tapes ports.new) (P.links ports.new) (P.dice_faults ports.new) (P.address ports.new) (P.drawn ports.new)) }
    ensures unread { result ≡ Status.ReadFault → ports.new ≡ ports.old }
    ensures read { result ≡ Status.ReadFault → Rose (S.faults source.old) (S.faults source.new) }
    ensures written { result ≡ Status.WriteFault → Rose (K.faults sink.old) (K.faults sink.new) }
    ensures listened { result ≡ Status.ListenFault → Rose (P.faults ports.old) (P.faults ports.new) }
    ensures usage { (result ≢ Status.Usage) × ((n : ℕ) → result ≢ Status.Script n) }
{
    match run(rt, alloc, serving, source, sink, ports) {
        Ok(()) => Status::Done,
        Err(status) => status,
    }
}
