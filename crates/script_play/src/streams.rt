//! The framers of a play.
ghost use Rattle.std.specs.Prelude.{◌≡◌, ◌<◌, ◌≤◌, ◌++◌, length, IfOk, OnOk};
ghost use Rattle.stream_grammar.specs.machine.Reading.{Reading, first_reading, handed, went};
ghost use Rattle.replay_script.specs.Deeds.{no_framers, with_framer, items_of, print_items};
ghost use Rattle.stream_frames.specs.Limits.{limits};
ghost use Rattle.script_play.specs.Streams.{framers_of};

use crate::place::Place;
use stanza_tree::NoMemory;
use std::alloc::Global;

/// A framer for each place that was fed, by number.
#[derive(Drop)]
pub struct Streams {
    alloc: Global,
    places: Vec<Option<Place>>,
}

impl Streams {
    /// No framers. Takes no memory.
    pub fn new(alloc: Global) -> Streams
        ensures { framers_of result.places.items ≡ no_framers }
    {
        Streams {
            alloc,
            places: Vec::new(alloc),
        }
    }

    #[tactic(auto, using(crate::proofs::StreamLemmas::place_more))]
    /// Makes room for the place of that number.
    fn reach(&mut self, w: usize) -> Result<(), NoMemory>
        ensures kept { framers_of self.new.places.items ≡ framers_of self.old.places.items }
        ensures there { OnOk result (w < length self.new.places.items) }
    {
        while self.places.len() <= w {
            self.places.push(None)?;
        }
        Ok(())
    }

    /// Takes out the framer of that place, which is then to be put back.
    #[tactic(auto, using(crate::proofs::StreamLemmas::with_set))]
    fn take_out(&mut self, w: usize) -> Result<Place, NoMemory>
        ensures there { OnOk result (w < length self.new.places.items) }
        ensures reading { IfOk result (λ p. p.framer.reading ≡ framers_of self.old.places.items w) }
        ensures rest { OnOk result ((s : Reading) → with_framer w s (framers_of self.new.places.items) ≡ with_framer w s (framers_of self.old.places.items)) }
    {
        self.reach(w)?;
        let taken = self.places[w].take();
        match taken {
            Some(place) => Ok(place),
            None => Place::new(self.alloc),
        }
    }

    /// Feeds bytes to the framer of that place, and prints the items that end in them and their fault.
    #[tactic(auto, using(crate::proofs::StreamLemmas::place_set))]
    pub fn feed(&mut self, w: usize, bytes: &[u8], print: &mut Vec<u8>) -> Result<(), NoMemory>
        ensures read { OnOk result (framers_of self.new.places.items ≡ with_framer w (handed (went limits (framers_of self.old.places.items w) bytes.now))
            (framers_of self.old.places.items)) }
        ensures printed { OnOk result (print.new.items ≡ print.old.items ++ print_items (items_of (framers_of self.old.places.items w) bytes.now)) }
    {
        let mut place = self.take_out(w)?;
        place.feed(bytes, print)?;
        self.places[w] = Some(place);
        Ok(())
    }

    #[tactic(auto, using(crate::proofs::StreamLemmas::place_set, crate::proofs::StreamLemmas::place_none))]
    /// The framer of that place begins again.
    pub fn begin_again(&mut self, w: usize)
        ensures { framers_of self.new.places.items ≡ with_framer w first_reading (framers_of self.old.places.items) }
    {
        if w < self.places.len() {
            self.places[w] = None;
        }
    }
}
