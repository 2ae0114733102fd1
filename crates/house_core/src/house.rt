//! The house. Each call is one event of the machine; after it the house stands for one turn more.
ghost use Rattle.std.specs.Prelude.{◌≡◌, ◌≤◌, [], List, length, replicate, true, IfOk};
ghost use Rattle.std.specs.List.{list_all};
ghost use Rattle.jid_core.specs.Names.{are_distinct};
ghost use Rattle.jid_core.specs.Preparation.{is_local};
ghost use Rattle.house_model.specs.Steps.{later};
ghost use Rattle.house_model.specs.States.{State, keep, opening, opening_with};
ghost use Rattle.house_model.specs.Histories.{StandsFor, Turn, openings};
ghost use Rattle.house_core.specs.Houses.{held};

use archive_table::Archives;
use contact_table::Book;
use hash_keys::HashKey;
use house_model::Limits;
use house_routing::Users;
use house_world::{Answers, World};
use jid_core::{Jid, Part};
use mark_sets::{MarkedWord, Marks};
use muc_service::Rooms;
use session_table::Table;
use stanza_tree::NoMemory;
use std::alloc::Global;
use std::marker::Model;

/// The greatest moment: 9999-12-31T23:59:59.999Z, in milliseconds since 1970. A greater one counts as this.
const LAST_MOMENT: u64 = 253_402_300_799_999;

/// Lines, sessions and what waits for them, what is kept of users, rooms, and archives. Each call names a line, `w`, below the number of workers.
#[derive(Drop)]
pub struct House {
    pub(crate) domain: Jid,
    pub(crate) users: Users,
    pub(crate) limits: Limits,
    pub(crate) turns: u64,
    pub(crate) moment: u64,
    pub(crate) world: World,
}

impl Model for House {
    ghost use Rattle.house_core.specs.Houses.{HouseRecord};
    ghost use Rattle.house_core.specs.Wholes.{IsWhole};

    ghost Value = { HouseRecord };

    ghost view = { λ h. record {
      domain = h.domain;
      users = h.users;
      limits = h.limits;
      turns = h.turns;
      moment = h.moment;
      table = h.world.table;
      answers = h.world.answers.items;
      book = h.world.book;
      rooms = h.world.rooms;
      archives = h.world.archives;
    } };

    ghost invariant = { λ h. IsWhole h.domain.domain h.users h.turns h.moment h.world.table h.world.answers.items h.world.book h.world.rooms
        h.world.archives };
}

impl House {
    /// A house of this domain and these users, with so many lines, before its first event. Costs the users and the lines.
    pub fn new(alloc: Global, domain: &Jid, users: &[Part], workers: u32) -> Result<House, NoMemory>
        requires prepared { list_all is_local users.now ≡ true }
        requires differ { are_distinct users.now ≡ true }
        requires few { length users.now ≤ 65536 }
        ensures held { IfOk result (λ h. held h ≡ keep (opening domain.now users.now workers)) }
        ensures history { IfOk result (λ h. StandsFor (opening domain.now users.now workers) [] (held h)) }
    {
        let (limits, key) = (Limits::usual(), HashKey::fixed());
        House::with_limits(alloc, domain, users, workers, limits, key)
    }

    /// The same with other limits than the usual ones, and with a key by which names are hashed: where clients choose names, one that
    /// they don't know.
    pub fn with_limits(
        alloc: Global,
        domain: &Jid,
        users: &[Part],
        workers: u32,
        limits: Limits,
        key: HashKey,
    ) -> Result<House, NoMemory>
        requires prepared { list_all is_local users.now ≡ true }
        requires differ { are_distinct users.now ≡ true }
        requires few { length users.now ≤ 65536 }
        ensures held { IfOk result (λ h. held h ≡ keep (opening_with limits domain.now users.now workers)) }
        ensures history { IfOk result (λ h. StandsFor (opening_with limits domain.now users.now workers) [] (held h)) }
    {
        let stirred = Marks::new(alloc, workers)?;
        let book = Book::new(alloc, domain.domain.copy(alloc)?, key);
        let rooms = Rooms::new(alloc);
        let archives = Archives::new(alloc, key);
        Ok(House {
            domain: domain.copy(alloc)?,
            users: Users::of(alloc, users, key)?,
            limits,
            turns: 0,
            moment: 0,
            world: World {
                table: Table::new(alloc, workers, key)?,
                answers: no_answers(alloc, workers)?,
                book,
                rooms,
                archives,
                stirred,
            },
        })
    }

    /// The number of turns so far, those included for which memory was wanting.
    pub fn turns(&self) -> u64
        ensures turns { result ≡ self.now.turns }
        ensures history { (o : State) (h : List Turn) → StandsFor o h (held self.now) → result ≡ length h }
    {
        self.turns
    }

    /// The number of connections so far.
    pub fn opened(&self) -> u64
        ensures opened { result ≡ self.now.table.opened }
        ensures history { (o : State) (h : List Turn) → StandsFor o h (held self.now) → result ≡ openings h }
    {
        self.world.table.opened()
    }

    /// The number of lines.
    pub fn workers(&self) -> usize
        ensures { result ≡ length self.now.table.lines }
    {
        self.world.answers.len()
    }

    /// Some of the lines that may have something to pull since this was last asked, because of an event of another line: an entry was queued
    /// for the session there, or the connection is over. Nothing is promised of it.
    pub fn next_stirred(&mut self) -> Option<MarkedWord>
        ensures { self.new ≡ self.old }
    {
        self.world.stirred.take_word()
    }

    /// The domain that the house serves.
    pub fn domain(&self) -> &Jid
        ensures { result.now ≡ self.now.domain }
    {
        &self.domain
    }

    /// The greater of the moment so far and this one.
    pub(crate) fn later(&self, t: u64) -> u64
        ensures { result ≡ later self.now.moment t }
    {
        self.moment.max(t.min(LAST_MOMENT))
    }
}

fn no_answers(alloc: Global, workers: u32) -> Result<Vec<Answers>, NoMemory>
    ensures { IfOk result (λ v. v.items ≡ replicate workers []) }
{
    let mut lines = Vec::new(alloc);
    for _number in 0..workers {
        lines.push(Answers::new(alloc)?)?;
    }
    Ok(lines)
}
