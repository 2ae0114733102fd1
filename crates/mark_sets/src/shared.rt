//! A set that several threads add to and take from.

use crate::marks::{BITS, MarkedWord, Marks};
use std::alloc::{AllocError, Global};
use std::sync::atomic::{AtomicU64, Ordering};

// How often a bit of one word is asked for, where others take bits of it at the same time: so a call ends whatever they do.
const MOST_TRIES: u32 = 64;

/// A set of numbers. A number that was added is found by whoever looks afterwards, until it is taken.
#[derive(Drop)]
pub struct SharedMarks {
    words: Vec<AtomicU64>,
    // Which words may have some.
    some: Vec<AtomicU64>,
}

impl SharedMarks {
    /// None of the numbers below `count`.
    pub fn new(alloc: Global, count: u32) -> Result<SharedMarks, AllocError> {
        let many = count.div_ceil(BITS);
        Ok(SharedMarks {
            words: no_bits(alloc, many)?,
            some: no_bits(alloc, many.div_ceil(BITS))?,
        })
    }

    /// A number more.
    pub fn add(&self, number: u32) {
        self.add_word(MarkedWord {
            number: number / BITS,
            bits: 1 << (number % BITS),
        });
    }

    /// The numbers of a word more. That the word has some is noted last.
    pub fn add_word(&self, more: MarkedWord) {
        if let Some(word) = self.words.get(more.number as usize) {
            word.fetch_or(more.bits, Ordering::SeqCst);
            self.note(more.number);
        }
    }

    // A word may have some.
    fn note(&self, word: u32) {
        if let Some(some) = self.some.get((word / BITS) as usize) {
            let bit = 1 << (word % BITS);
            if some.load(Ordering::SeqCst) & bit == 0 {
                some.fetch_or(bit, Ordering::SeqCst);
            }
        }
    }

    /// Takes a number out.
    pub fn take(&self) -> Option<u32> {
        let mut first: u32 = 0;
        for some in self.some.iter() {
            if let Some(number) = self.take_from(some, first) {
                return Some(number);
            }
            first = first.saturating_add(BITS);
        }
        None
    }

    // Takes a number out of the words that this one tells of, the first of which has this number.
    fn take_from(&self, some: &AtomicU64, first: u32) -> Option<u32> {
        for _try in 0..MOST_TRIES {
            let bits = some.load(Ordering::SeqCst);
            if bits == 0 {
                return None;
            }
            let bit = bits.trailing_zeros();
            let number = first.saturating_add(bit);
            let word = self.words.get(number as usize)?;
            if let Some(bit) = take_bit(word) {
                return Some(number.saturating_mul(BITS).saturating_add(bit));
            }
            // What was added to the word since the look is noted again.
            some.fetch_and(!(1 << (bit % BITS)), Ordering::SeqCst);
            if word.load(Ordering::SeqCst) != 0 {
                self.note(number);
            }
        }
        None
    }

    /// Moves all numbers to a set of one owner.
    pub fn move_to(&self, marks: &mut Marks) {
        let mut first: u32 = 0;
        for some in self.some.iter() {
            if some.load(Ordering::SeqCst) != 0 {
                let bits = some.swap(0, Ordering::SeqCst);
                self.move_words(bits, first, marks);
            }
            first = first.saturating_add(BITS);
        }
    }

    // Moves the numbers of the words with these bits, the first of which has this number.
    fn move_words(&self, bits: u64, first: u32, marks: &mut Marks) {
        let mut bits = bits;
        for _bit in 0..BITS {
            if bits == 0 {
                return;
            }
            let number = first.saturating_add(bits.trailing_zeros());
            bits &= bits.wrapping_sub(1);
            if let Some(word) = self.words.get(number as usize) {
                let bits = word.swap(0, Ordering::SeqCst);
                marks.add_word(MarkedWord { number, bits });
            }
        }
    }
}

fn no_bits(alloc: Global, many: u32) -> Result<Vec<AtomicU64>, AllocError> {
    let mut words = Vec::new(alloc);
    for _number in 0..many {
        words.push(AtomicU64::new(0))?;
    }
    Ok(words)
}

// The number of a bit that is taken out of a word.
fn take_bit(word: &AtomicU64) -> Option<u32> {
    for _try in 0..MOST_TRIES {
        let bits = word.load(Ordering::SeqCst);
        if bits == 0 {
            return None;
        }
        let rest = bits & bits.wrapping_sub(1);
        if word
            .compare_exchange(bits, rest, Ordering::SeqCst, Ordering::SeqCst)
            .is_ok()
        {
            return Some(bits.trailing_zeros());
        }
    }
    None
}
