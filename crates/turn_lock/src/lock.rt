//! The lock itself.
ghost use Rattle.std.specs.Prelude.{◌≡◌, ◌<◌, ◌≤◌, ◌+◌, ◌^◌, ◌∷◌, ◌++◌, [], length, vec_len, map};
ghost use Rattle.std.specs.Prelude.{IfOk, IfErr, IfSome, None, false, true, All, Contains};

use crate::parking::ParkingLot;
use crate::rule::{
    CopySeen, DealNumber, Draw, Look, OneHistory, PassOn, Peek, TakeIn, Terms, View,
};
use crate::story::Storied;
use crate::tokens::{NoMemory, Pass, Spent, Turn};
use atomic_table::{Seat, Table};
use std::alloc::{AllocError, Global};
use std::hint::spin_loop;
use std::snapshot::Snapshot;
use std::sync::Wait;

// The word that has the next ticket.
const NEXT_TICKET: usize = 0;

// The word that has the turn being served.
const SERVED_TURN: usize = 1;

// The slot that has the value.
const VALUE_SLOT: usize = 0;

// Once so many turns were drawn, none is begun. The next ticket then never reaches the end of its
// word: the passes that looked before may still draw, and they are fewer than 2^32.
const MOST_TURNS: u64 = 1 << 63;

// A pass that is near its turn looks again so often, and then it sleeps: to sleep and be woken costs some tens of
// microseconds, in which several turns may come before it.
const MOST_LOOKS: u32 = 20_000;

// So often where only the next in turn is near: others wait for its processor then.
const FEW_LOOKS: u32 = 1000;

/// A value under a lock that gives it out for one turn at a time.
#[derive(Drop)]
pub struct Turnstile<T: Storied> {
    table: Table<Option<T>, View<T::Entry, T::Root>, Terms<T>, OneHistory<T>, Global>,
    passes: u32,
    near: u32,
    lot: ParkingLot,
    ghost sized: { (table.shared.table_id.words ≡ 2) × (table.shared.table_id.slots ≡ 1) },
    ghost agreed: { table.shared.key.passes ≡ passes },
    ghost some: { 0 < passes },
}

impl<T: Storied> Turnstile<T> {
    ghost use Rattle.turn_lock.specs.Histories.{StartsWith, AddsOne};
    ghost use Rattle.turn_lock.specs.Passes.{number_of, seen, mine, refused, drawn, root_of};
    ghost use Rattle.turn_lock.specs.Passes.{IsIdle, HasTurn, SeesStory, IsWaiting, IsHolding};

    /// Waits for a turn and takes the value out. `Spent` comes exactly where this call finds that
    /// 2^63 turns were drawn, and the pass then has the mark.
    ///
    /// A pass that is near its turn looks again and again for a while, and else it sleeps until its turn is near, or has come.
    /// Nothing bounds the wait, and it lasts for ever where a turn before it is never left.
    pub fn enter<W: Wait>(&self, rt: &W, pass: &mut Pass<T>) -> Result<Turn<T>, Spent>
        requires idle { IsIdle T.line T.root self.now pass.old }
        ensures number { number_of pass.new ≡ number_of pass.old }
        ensures turn { IfOk result (λ _. HasTurn T.line T.root self.now pass.new) }
        ensures root { IfOk result (λ t. T.root t.value ≡ root_of T.root self.now) }
        ensures story { IfOk result (λ t. T.story t.value ≡ seen pass.new) }
        ensures history { StartsWith (seen pass.new) (seen pass.old) }
        ensures mine { mine T.line pass.new ≡ mine T.line pass.old }
        ensures told { SeesStory T.story T.root self.now pass.new }
        ensures few { IfOk result (λ _. length (seen pass.new) < 2 ^ 63 + 2 ^ 32) }

        // Spent comes exactly where 2^63 turns were drawn. Their number is that in `drawn`: this call
        // found it, and it is no less than what the pass knew of, or has seen.
        ensures known { drawn pass.old ≤ drawn pass.new }
        ensures counted { length (seen pass.old) ≤ drawn pass.new }
        ensures given { IfOk result (λ _. drawn pass.new < 2 ^ 63) }
        ensures spent { IfErr result (λ _. 2 ^ 63 ≤ drawn pass.new) }

        // The mark comes with Spent alone, and then the pass is else as before.
        ensures unmarked { IfOk result (λ _. (refused pass.old ≡ false) × (refused pass.new ≡ false)) }
        ensures marked { IfErr result (λ _. refused pass.new ≡ true) }
        ensures idle { IfErr result (λ _. IsIdle T.line T.root self.now pass.new) }
        ensures kept { IfErr result (λ _. seen pass.new ≡ seen pass.old) }
    {
        let Some(ticket) = self.draw(pass) else {
            return Err(Spent);
        };
        self.wait(rt, pass, ticket);
        let Some(value) = self.table.shared.exchange(&mut pass.seat, VALUE_SLOT, None) else {
            unreachable!()
        };
        Ok(Turn { value })
    }

    /// Puts the value back, with one entry more, and passes the turn on. The pass that has come near its turn is woken too.
    pub fn leave(&self, turn: Turn<T>, pass: &mut Pass<T>)
        requires turn { HasTurn T.line T.root self.now pass.old }
        requires root { T.root turn.value ≡ root_of T.root self.now }
        requires one { AddsOne T.line (number_of pass.old) (seen pass.old) (T.story turn.value) }
        ensures idle { IsIdle T.line T.root self.now pass.new }
        ensures number { number_of pass.new ≡ number_of pass.old }
        ensures history { seen pass.new ≡ T.story turn.value }
        ensures told { SeesStory T.story T.root self.now pass.new }
        ensures mine { mine T.line pass.new ≡ mine T.line pass.old ++ length (seen pass.old) ∷ [] }
        ensures drawn { drawn pass.new ≡ drawn pass.old }
        ensures refused { refused pass.new ≡ refused pass.old }
    {
        let Turn { value } = turn;
        let slot = self
            .table
            .shared
            .exchange(&mut pass.seat, VALUE_SLOT, Some(value));
        let None = slot else { unreachable!() };
        let served = self
            .table
            .shared
            .fetch_add::<PassOn<T>>(&mut pass.seat, SERVED_TURN, 1);
        let next = served.saturating_add(1);
        self.lot.unpark(next);
        self.lot.unpark(next.saturating_add(u64::from(self.near)));
    }

    /// Lets `into` know what `from` has seen. No turn is taken, and what `into` has then seen is the
    /// story of some value that has the lock's root.
    pub fn meet(&self, from: &mut Pass<T>, into: &mut Pass<T>)
        requires from { IsIdle T.line T.root self.now from.old }
        requires into { IsIdle T.line T.root self.now into.old }
        ensures from { from.new ≡ from.old }
        ensures idle { IsIdle T.line T.root self.now into.new }
        ensures number { number_of into.new ≡ number_of into.old }
        ensures met { StartsWith (seen into.new) (seen from.old) }
        ensures history { StartsWith (seen into.new) (seen into.old) }
        ensures told { SeesStory T.story T.root self.now into.new }
        ensures mine { mine T.line into.new ≡ mine T.line into.old }
        ensures drawn { (drawn from.old ≤ drawn into.new) × (drawn into.old ≤ drawn into.new) }
        ensures refused { refused into.new ≡ refused into.old }
    {
        let copy = self.table.shared.split_seat::<CopySeen>(&mut from.seat);
        self.table.shared.join_seat::<TakeIn>(&mut into.seat, copy);
        self.table
            .shared
            .load::<Look<T>>(&mut into.seat, SERVED_TURN);
    }

    // The next ticket, where fewer than 2^63 were drawn.
    fn draw(&self, pass: &mut Pass<T>) -> Option<u64>
        requires idle { IsIdle T.line T.root self.now pass.old }
        ensures number { number_of pass.new ≡ number_of pass.old }
        ensures ticket { IfSome result (λ t. IsWaiting T.line T.root self.now t pass.new) }
        ensures idle { result ≡ None → IsIdle T.line T.root self.now pass.new }
        ensures seen { seen pass.new ≡ seen pass.old }
        ensures told { SeesStory T.story T.root self.now pass.new }
        ensures mine { mine T.line pass.new ≡ mine T.line pass.old }
        ensures known { drawn pass.old ≤ drawn pass.new }
        ensures counted { length (seen pass.old) ≤ drawn pass.new }
        ensures given { IfSome result (λ _. drawn pass.new < 2 ^ 63) }
        ensures spent { result ≡ None → 2 ^ 63 ≤ drawn pass.new }
        ensures unmarked { IfSome result (λ _. (refused pass.old ≡ false) × (refused pass.new ≡ false)) }
        ensures marked { result ≡ None → refused pass.new ≡ true }
    {
        if self
            .table
            .shared
            .load::<Peek<T>>(&mut pass.seat, NEXT_TICKET)
            >= MOST_TURNS
        {
            return None;
        }
        Some(
            self.table
                .shared
                .fetch_add::<Draw<T>>(&mut pass.seat, NEXT_TICKET, 1),
        )
    }

    // Waits until the ticket is served. The slot is then out to this pass.
    fn wait<W: Wait>(&self, rt: &W, pass: &mut Pass<T>, ticket: u64)
        requires waits { IsWaiting T.line T.root self.now ticket pass.old }
        ensures holds { (x : T) × IsHolding T.line T.root self.now ticket x pass.new
            × (T.root x ≡ root_of T.root self.now) × (T.story x ≡ seen pass.new) }
        ensures number { number_of pass.new ≡ number_of pass.old }
        ensures history { StartsWith (seen pass.new) (seen pass.old) }
        ensures mine { mine T.line pass.new ≡ mine T.line pass.old }
        ensures drawn { drawn pass.new ≡ drawn pass.old }
        ensures refused { refused pass.new ≡ refused pass.old }
        ensures few { length (seen pass.new) < 2 ^ 63 + 2 ^ 32 }
    {
        let most = if self.near > 1 { MOST_LOOKS } else { FEW_LOOKS };
        let mut looks: u32 = 0;
        let mut wakes = None;
        for _ in rt.forever() {
            let served = self
                .table
                .shared
                .load::<Look<T>>(&mut pass.seat, SERVED_TURN);
            if served == ticket {
                if wakes.is_some() {
                    self.lot.depart(ticket);
                }
                return;
            }
            // Each sleep follows a look that came after the pass arrived, so that no wake is missed.
            let is_near = ticket.saturating_sub(served) <= u64::from(self.near);
            wakes = match wakes {
                Some(wakes) => {
                    self.lot.park(rt, ticket, wakes);
                    self.lot.depart(ticket);
                    looks = 0;
                    None
                }
                None if is_near && looks < most => {
                    looks = looks.saturating_add(1);
                    spin_loop();
                    None
                }
                None => Some(self.lot.arrive(ticket)),
            };
        }
        unreachable!()
    }
}

impl<T: Storied + Drop> Turnstile<T> {
    ghost use Rattle.turn_lock.specs.declared.rule.Stage.TheVariants.{Idle};
    ghost use Rattle.turn_lock.specs.Views.{times};
    ghost use Rattle.turn_lock.specs.Histories.{StartsWith, Each, Sound, places, counted};
    ghost use Rattle.turn_lock.specs.Passes.{number_of, seen, mine, refused, drawn, IsIdle, SeesStory};
    ghost use Rattle.turn_lock.specs.Passes.{root_of, passes_of};

    /// A lock round a value without entries, and its passes, numbered from 0. The value's root is the
    /// lock's root. A pass is near its turn where at most `near` others come first: it then looks again and again, which
    /// costs less than to sleep and be woken where so many threads and one more have a processor each.
    pub fn start(
        alloc: Global,
        value: T,
        passes: u32,
        near: u32,
    ) -> Result<(Turnstile<T>, Vec<Pass<T>>), NoMemory>
        requires some { 0 < passes }
        requires empty { T.story value ≡ [] }
        ensures root { IfOk result (λ r. root_of T.root r.0 ≡ T.root value) }
        ensures passes { IfOk result (λ r. passes_of r.0 ≡ passes) }
        ensures count { IfOk result (λ r. vec_len r.1 ≡ passes) }
        ensures numbers { IfOk result (λ r. map number_of r.1.items ≡ counted 0 passes) }
        ensures idle { IfOk result (λ r. All (IsIdle T.line T.root r.0) r.1.items) }
        ensures told { IfOk result (λ r. All (SeesStory T.story T.root r.0) r.1.items) }
        ensures fresh { IfOk result (λ r.
            All (λ p. (seen p ≡ []) × (drawn p ≡ 0) × (refused p ≡ false)) r.1.items) }
    {
        let terms = Terms {
            first: Snapshot::of(&value),
            passes,
        };
        let mut slots = Vec::new(alloc);
        slots.push(Some(value))?;
        let Ok((table, mut dealer)) = Table::new(alloc, &[0, 0], slots, &terms) else {
            return Err(AllocError);
        };
        let mut all = Vec::new(alloc);
        for number in 0..passes {
            let seat = table.shared.split_seat::<DealNumber>(&mut dealer);
            all.push(Pass { seat, number })?;
        }
        let lot = ParkingLot::new(alloc)?;
        let lock = Turnstile {
            table,
            passes,
            near,
            lot,
        };
        Ok((lock, all))
    }

    /// Ends the lock, with all its passes, and gives the value back.
    pub fn close(self, passes: Vec<Pass<T>>) -> T
        requires all { vec_len passes ≡ passes_of self }
        requires idle { All (IsIdle T.line T.root self) passes.items }
        ensures root { T.root result ≡ root_of T.root self }
        ensures history { All (λ p. StartsWith (T.story result) (seen p)) passes.items }
        ensures lines { All (λ e. Contains (map number_of passes.items) (T.line e)) (T.story result) }
        ensures mine { All (λ p. mine T.line p ≡ places T.line (number_of p) 0 (T.story result))
            passes.items }
        ensures refused { All (λ p. refused p ≡ true → 2 ^ 63 ≤ length (T.story result))
            passes.items }
        ensures drawn { All (λ p. drawn p ≤ length (T.story result)) passes.items }
    {
        let mut others = passes.into_iter();
        let Some(
            Pass {
                mut seat,
                number: _,
            },
        ) = others.next()
        else {
            unreachable!()
        };
        for Pass {
            seat: other,
            number: _,
        } in others {
            self.table.shared.join_seat::<TakeIn>(&mut seat, other);
        }
        self.last_value(seat)
    }

    // The value, where this seat has taken in all passes.
    fn last_value(self, seat: Seat<Option<T>, View<T::Entry, T::Root>>) -> T
        requires table { seat.table_id ≡ self.table.shared.table_id }
        requires idle { seat.me.0.stage ≡ Idle }
        requires all { length seat.me.0.claims ≡ passes_of self }
        ensures root { T.root result ≡ root_of T.root self }
        ensures sound { Sound T.line (T.story result) seat.me.0 }
        ensures lines { Each (λ e. times (T.line e) seat.me.0.claims ≡ 1) (T.story result) }
    {
        let Turnstile {
            table,
            passes: _,
            near: _,
            lot: _,
        } = self;
        let mut closed = table.close_with(seat);
        let value = closed.take(VALUE_SLOT);
        closed.free();
        let Some(value) = value else { unreachable!() };
        value
    }
}
