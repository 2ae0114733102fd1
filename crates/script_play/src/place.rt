//! The framer of a connection's place.
ghost use Rattle.std.specs.Prelude.{◌≡◌, ◌≤◌, ◌<◌, ◌++◌, length, true, IfOk, OnOk};
ghost use Rattle.stream_grammar.specs.machine.Reading.{first_reading, handed, is_ready, went};
ghost use Rattle.replay_script.specs.Deeds.{items_of, print_items};
ghost use Rattle.stream_frames.specs.Limits.{limits};
ghost use Rattle.script_play.specs.Feeding.{FedOn};

use replay_script::print_item;
use stanza_tree::NoMemory;
use std::alloc::Global;
use stream_frames::{Framer, LIMITS};

/// A framer of which each item was handed out.
#[derive(Drop)]
pub struct Place {
    framer: Framer,
    ghost limited: { framer.limits ≡ limits },
    ghost ready: { is_ready framer.reading ≡ true },
}

impl Place {
    /// A framer that has read nothing.
    pub fn new(alloc: Global) -> Result<Place, NoMemory>
        ensures { IfOk result (λ p. p.framer.reading ≡ first_reading) }
    {
        Ok(Place {
            framer: Framer::new(alloc, LIMITS)?,
        })
    }

    /// Reads a piece up to the byte that ends an item or has a fault, and prints what it brings: how many bytes. After a fault they
    /// are passed over. Where there is no memory the stream is given up.
    #[tactic(auto, using(crate::proofs::StreamLemmas::handed_ready, crate::proofs::PieceLemmas::taken_fits, crate::proofs::PieceLemmas::taken_some))]
    fn feed_piece(&mut self, piece: &[u8], print: &mut Vec<u8>) -> Result<usize, NoMemory>
        ensures fits { IfOk result (λ n. n ≤ length piece.now) }
        ensures some { IfOk result (λ n. 0 < length piece.now → 0 < n) }
        ensures fed { IfOk result (λ n. FedOn self.old.framer.reading piece.now print.old.items n self.new.framer.reading print.new.items) }
    {
        if self.framer.next().is_some() {
            return Ok(piece.len());
        }
        let taken = match self.framer.feed(piece) {
            Ok(taken) => taken,
            Err(_) => {
                self.framer.restart();
                return Err(NoMemory);
            }
        };
        if let Some(item) = self.framer.next() {
            print_item(&item, print)?;
        }
        Ok(taken)
    }

    /// Reads bytes, and prints the items that end in them and their fault. Costs the bytes and what is printed.
    #[tactic(auto, using(crate::proofs::PieceLemmas::all_fed))]
    pub fn feed(&mut self, bytes: &[u8], print: &mut Vec<u8>) -> Result<(), NoMemory>
        ensures read { OnOk result (self.new.framer.reading ≡ handed (went limits self.old.framer.reading bytes.now)) }
        ensures printed { OnOk result (print.new.items ≡ print.old.items ++ print_items (items_of self.old.framer.reading bytes.now)) }
    {
        let mut at = 0;
        while at < bytes.len() {
            at += self.feed_piece(&bytes[at..], print)?;
        }
        Ok(())
    }
}
