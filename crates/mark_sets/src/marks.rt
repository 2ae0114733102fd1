//! A set of one owner.

use std::alloc::{AllocError, Global};
use std::mem;

/// How many bits a word has.
pub(crate) const BITS: u32 = 64;

/// The numbers of one word: n is bit n % 64 of word n / 64.
#[derive(Clone, Copy)]
pub struct MarkedWord {
    pub(crate) number: u32,
    pub(crate) bits: u64,
}

/// A set of numbers.
#[derive(Drop)]
pub struct Marks {
    words: Vec<u64>,
    // Which words have some.
    some: Vec<u64>,
}

/// The bits of a word that begins at a number, for the numbers that are not below another.
fn not_below(from: u32, start: u32) -> u64 {
    if from <= start {
        return u64::MAX;
    }
    let below = from - start;
    if below < BITS { u64::MAX << below } else { 0 }
}

/// The first number at or after this one whose bit is set.
fn first_from(words: &[u64], from: u32) -> Option<u32> {
    let mut start = from / BITS * BITS;
    for word in words.get((from / BITS) as usize..)? {
        let bits = *word & not_below(from, start);
        if bits != 0 {
            return Some(start.saturating_add(bits.trailing_zeros()));
        }
        start = start.saturating_add(BITS);
    }
    None
}

impl Marks {
    /// None of the numbers below `count`. Costs a bit for each.
    pub fn new(alloc: Global, count: u32) -> Result<Marks, AllocError> {
        let many = count.div_ceil(BITS);
        let mut words = Vec::new(alloc);
        words.resize(many as usize, 0)?;
        let mut some = Vec::new(alloc);
        some.resize(many.div_ceil(BITS) as usize, 0)?;
        Ok(Marks { words, some })
    }

    /// Whether none is in it.
    pub fn is_empty(&self) -> bool {
        self.some.iter().all(|word| *word == 0)
    }

    /// A number more.
    pub fn add(&mut self, number: u32) {
        self.add_word(MarkedWord {
            number: number / BITS,
            bits: 1 << (number % BITS),
        });
    }

    /// A number more, where there is one.
    pub fn note(&mut self, number: Option<u32>) {
        if let Some(number) = number {
            self.add(number);
        }
    }

    /// The numbers of a word more.
    pub fn add_word(&mut self, more: MarkedWord) {
        if let Some(word) = self.words.get_mut(more.number as usize) {
            *word |= more.bits;
        }
        if let Some(some) = self.some.get_mut((more.number / BITS) as usize) {
            *some |= 1 << (more.number % BITS);
        }
    }

    /// Takes the first number at or after this one, or else the first of all.
    pub fn take(&mut self, from: u32) -> Option<u32> {
        let number = match self.first(from) {
            Some(number) => number,
            None => self.first(0)?,
        };
        let word = self.words.get_mut((number / BITS) as usize)?;
        *word &= !(1 << (number % BITS));
        if *word == 0 {
            self.forget(number / BITS);
        }
        Some(number)
    }

    // The first number at or after this one: in its own word, or in the first word after it that has some.
    fn first(&self, from: u32) -> Option<u32> {
        let own = from / BITS;
        let word = *self.words.get(own as usize)? & not_below(from, own * BITS);
        if word != 0 {
            return Some((own * BITS).saturating_add(word.trailing_zeros()));
        }
        let next = first_from(self.some.as_slice(), own.saturating_add(1))?;
        let word = self.words.get(next as usize)?;
        Some(
            next.saturating_mul(BITS)
                .saturating_add(word.trailing_zeros()),
        )
    }

    // A word has none any more.
    fn forget(&mut self, word: u32) {
        if let Some(some) = self.some.get_mut((word / BITS) as usize) {
            *some &= !(1 << (word % BITS));
        }
    }

    /// Takes the numbers of the first word that has some.
    pub fn take_word(&mut self) -> Option<MarkedWord> {
        let number = first_from(self.some.as_slice(), 0)?;
        self.forget(number);
        let bits = mem::take(self.words.get_mut(number as usize)?);
        Some(MarkedWord { number, bits })
    }

    /// Takes all numbers out of another set.
    pub fn take_all(&mut self, other: &mut Marks) {
        for _word in 0..other.words.len() {
            let Some(word) = other.take_word() else {
                return;
            };
            self.add_word(word);
        }
    }
}
