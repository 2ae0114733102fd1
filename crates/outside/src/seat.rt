//! The places of a poller in memory.
ghost use Rattle.std.specs.Prelude.{◌≡◌, replicate, List, IfOk, is_some, map};
ghost use Rattle.outside.specs.Polls.{all_free, all_tell, gave_up, took_up, unused};
ghost use Rattle.outside.specs.Tapes.{Mark, marks_told, shown};

use crate::tape::Tape;
use std::alloc::{AllocError, Global};
use std::marker::Model;

/// A place of a poller in memory.
#[derive(Drop)]
pub(crate) struct Seat {
    taken: bool,
    came: u64,
    back: Vec<Tape>,
    tells: bool,
}

impl Model for Seat {
    ghost use Rattle.std.specs.Prelude.{List, map, ◌-◌, vec_capacity, vec_len};
    ghost use Rattle.outside.specs.Polls.{SeatState};
    ghost use Rattle.outside.specs.Tapes.{Mark, marks_told, told_where};

    ghost Value = { SeatState };

    ghost view = { λ s. record {
      taken = s.taken;
      came = s.came;
      tapes = told_where (List Mark) s.tells (map marks_told s.back.items);
      room = vec_capacity s.back - vec_len s.back;
    } };
}

impl Seat {
    /// A free place, with room for so many tapes.
    fn new(alloc: Global, tapes: usize) -> Result<Seat, AllocError>
        ensures { IfOk result (λ s. s ≡ unused tapes) }
    {
        Ok(Seat {
            taken: false,
            came: 0,
            back: Vec::with_capacity(alloc, tapes)?,
            tells: true,
        })
    }

    pub fn is_taken(&self) -> bool
        ensures { result ≡ self.now.taken }
    {
        self.taken
    }

    /// Whether it tells the tapes of the links that came back.
    fn tells(&self) -> bool
        ensures { result ≡ is_some self.now.tapes }
    {
        self.tells
    }

    /// The tapes of the links that came back, or none where it doesn't tell them.
    pub fn tapes(&self) -> &[Tape]
        ensures { map marks_told result.now ≡ shown (List Mark) self.now.tapes }
    {
        if self.tells {
            self.back.as_slice()
        } else {
            &[]
        }
    }

    pub fn take_up(&mut self)
        ensures { self.new ≡ took_up self.old }
    {
        self.taken = true;
        self.came = self.came.saturating_add(1);
    }

    pub fn give_up(&mut self, tape: Tape)
        ensures { self.new ≡ gave_up self.old tape.told }
    {
        self.taken = false;
        if self.back.len() == self.back.capacity() {
            self.tells = false;
            return;
        }
        self.tells = self.tells && tape.tells();
        self.back.push_reserved(tape);
    }
}

/// So many free places, each with room for so many tapes.
pub(crate) fn free_seats(alloc: Global, places: u32, tapes: usize) -> Result<Vec<Seat>, AllocError>
    ensures { IfOk result (λ v. v.items ≡ replicate places (unused tapes)) }
{
    let mut seats = Vec::with_capacity(alloc, places as usize)?;
    for _k in 0..places {
        seats.push_reserved(Seat::new(alloc, tapes)?);
    }
    Ok(seats)
}

/// Whether none of the places is taken.
pub(crate) fn all_free(seats: &[Seat]) -> bool
    ensures { result ≡ all_free seats.now }
{
    for seat in seats {
        if seat.is_taken() {
            return false;
        }
    }
    true
}

/// Whether tapes are told at each place.
pub(crate) fn all_tell(seats: &[Seat]) -> bool
    ensures { result ≡ all_tell seats.now }
{
    for seat in seats {
        if !seat.tells() {
            return false;
        }
    }
    true
}
