//! `replay`: plays a script and prints the reply of each line.
ghost use Rattle.std.specs.Prelude.{◌≡◌, ℕ, ◌<◌, ◌≤◌, ◌^◌, ◌+◌, ◌++◌, ◌∷◌, List, [], length, vec_capacity, ◌≢◌, Option, Some, IfOk, IfErr, IsTrue, OnOk, OnErr};
ghost use Rattle.house_core.specs.Houses.{held};
ghost use Rattle.house_model.specs.Histories.{Meets};
ghost use Rattle.house_model.specs.States.{State};
ghost use Rattle.outside.specs.Devices.{Rose};
ghost use Rattle.replay_script.specs.Deeds.{no_framers};
ghost use Rattle.replay_script.specs.Lines.{StepFits};
ghost use Rattle.replay_script.specs.Scripts.{Makes};
ghost use Rattle.replay_script.specs.declared.step.Step.TheVariants as step;
ghost use Rattle.script_play.specs.Streams.{framers_of};
ghost use Rattle.script_play.specs.Readings.{unread};
ghost use Rattle.script_play.specs.Runs.{Replayed, Going, Taking, Opens, Plays, PlaysStep, Opening, Turning, Ending};

use crate::lines::{Reader, Taken};
use crate::output::write_all;
use crate::status::Status;
use crate::streams::Streams;
use house_core::{House, MOST_FRAME};
use house_model::Event;
use outside::{Sink, Source};
use replay_script::{LineFault, Step, print_reply, read_line};
use std::alloc::Global;

/// Plays a script. Memory is taken for the house, for one line and for one frame. Costs the script and what is printed.
pub fn replay<S: Source, K: Sink>(alloc: Global, source: &mut S, sink: &mut K) -> Status
    ensures replayed { Replayed (S.left source.old) (S.left source.new) (K.took sink.old) (K.took sink.new) result }
    ensures read { result ≡ Status.ReadFault → Rose (S.faults source.old) (S.faults source.new) }
    ensures written { result ≡ Status.WriteFault → Rose (K.faults sink.old) (K.faults sink.new) }
{
    match play_all(alloc, source, sink) {
        Ok(()) => Status::Done,
        Err(status) => status,
    }
}

fn play_all<S: Source, K: Sink>(alloc: Global, source: &mut S, sink: &mut K) -> Result<(), Status>
    ensures replayed { Ending (S.left source.old) (S.left source.new) (K.took sink.old) (K.took sink.new) result }
    ensures read { IfErr result (λ s. s ≡ Status.ReadFault → Rose (S.faults source.old) (S.faults source.new)) }
    ensures written { IfErr result (λ s. s ≡ Status.WriteFault → Rose (K.faults sink.old) (K.faults sink.new)) }
{
    let mut reader = Reader::new();
    match open_house(alloc, &mut reader, source)? {
        Some(house) => {
            let mut player = Player::new(alloc, house);
            player.play_on(alloc, &mut reader, source, sink)
        }
        None => Ok(()),
    }
}

/// Takes the first line and makes its house. None where there is no line.
fn open_house<S: Source>(
    alloc: Global,
    reader: &mut Reader,
    source: &mut S,
) -> Result<Option<House>, Status>
    requires held { reader.old.held ≡ [] }
    requires given { reader.old.given ≡ 0 }
    ensures falls { S.faults source.old ≤ S.faults source.new }
    ensures read { IfErr result (λ s. s ≡ Status.ReadFault → Rose (S.faults source.old) (S.faults source.new)) }
    ensures written { IfErr result (λ s. s ≢ Status.WriteFault) }
    ensures opens { (took : Option (List ℕ))
        → Opening (S.left source.old) (unread reader.new.held (S.left source.new)) (S.left source.new) took reader.new.given result }
{
    let mut line = Vec::new(alloc);
    if !take(reader, source, &mut line, 1)? {
        return Ok(None);
    }
    match house_of(alloc, line.as_slice()) {
        Ok(house) => Ok(Some(house)),
        Err(LineFault::Bad) => Err(Status::Script(1)),
        Err(LineFault::NoMemory) => Err(Status::NoMemory),
    }
}

/// The house of a first line.
fn house_of(alloc: Global, line: &[u8]) -> Result<House, LineFault>
    ensures opens { IfOk result (λ h. Opens line.now (held h)) }
    ensures bad { IfErr result (λ f. f ≡ LineFault.Bad → (o : State) → Makes line.now o → ⊥) }
{
    match read_line(alloc, line)? {
        Step::Begin {
            domain,
            users,
            workers,
        } => Ok(House::new(alloc, &domain, users.slice(), workers)?),
        Step::Event(_) | Step::Feed { .. } | Step::Fresh { .. } => Err(LineFault::Bad),
    }
}

/// Takes a line, whose number this is. False where there is none.
fn take<S: Source>(
    reader: &mut Reader,
    source: &mut S,
    line: &mut Vec<u8>,
    number: u64,
) -> Result<bool, Status>
    ensures falls { S.faults source.old ≤ S.faults source.new }
    ensures read { IfErr result (λ s. s ≡ Status.ReadFault → Rose (S.faults source.old) (S.faults source.new)) }
    ensures takes { Taking (unread reader.old.held (S.left source.old))
        (unread reader.new.held (S.left source.new)) reader.old.given reader.new.given line.new.items number result }
{
    match reader.take_line(source, line)? {
        Taken::Line => Ok(true),
        Taken::End => Ok(false),
        Taken::TooLong => Err(Status::Script(number)),
        Taken::Failed => Err(Status::ReadFault),
    }
}

/// The house of a play and its framers, and room for a line, a frame and a print.
#[derive(Drop)]
struct Player {
    house: House,
    streams: Streams,
    line: Vec<u8>,
    frame: Vec<u8>,
    print: Vec<u8>,
}

impl Player {
    fn new(alloc: Global, house: House) -> Player
        ensures house { result.house ≡ house }
        ensures streams { framers_of result.streams.places.items ≡ no_framers }
    {
        Player {
            house,
            streams: Streams::new(alloc),
            line: Vec::new(alloc),
            frame: Vec::new(alloc),
            print: Vec::new(alloc),
        }
    }

    /// Plays the lines after the first.
    fn play_on<S: Source, K: Sink>(
        &mut self,
        alloc: Global,
        reader: &mut Reader,
        source: &mut S,
        sink: &mut K,
    ) -> Result<(), Status>
        requires going { (left : Option (List ℕ))
            × ((took : Option (List ℕ)) × Going left (unread reader.old.held (S.left source.old)) took (K.took sink.old) reader.old.given (held self.old.house)
            (framers_of self.old.streams.places.items) 2) }
        ensures source_falls { S.faults source.old ≤ S.faults source.new }
        ensures read { IfErr result (λ s. s ≡ Status.ReadFault → Rose (S.faults source.old) (S.faults source.new)) }
        ensures written { IfErr result (λ s. s ≡ Status.WriteFault → Rose (K.faults sink.old) (K.faults sink.new)) }
        ensures ends { (left took : Option (List ℕ))
            → Going left (unread reader.old.held (S.left source.old)) took (K.took sink.old) reader.old.given (held self.old.house)
            (framers_of self.old.streams.places.items) 2 → Ending left (S.left source.new) took (K.took sink.new) result }
    {
        for number in 2..u64::MAX {
            if !self.turn(alloc, reader, source, sink, number)? {
                return Ok(());
            }
        }
        unreachable!()
    }

    /// Takes the next line, plays it and writes its print. False where no line is left.
    fn turn<S: Source, K: Sink>(
        &mut self,
        alloc: Global,
        reader: &mut Reader,
        source: &mut S,
        sink: &mut K,
        number: u64,
    ) -> Result<bool, Status>
        requires turns { self.old.house.turns < 2 ^ 63 }
        ensures source_falls { S.faults source.old ≤ S.faults source.new }
        ensures sink_falls { K.faults sink.old ≤ K.faults sink.new }
        ensures read { IfErr result (λ s. s ≡ Status.ReadFault → Rose (S.faults source.old) (S.faults source.new)) }
        ensures written { IfErr result (λ s. s ≡ Status.WriteFault → Rose (K.faults sink.old) (K.faults sink.new)) }
        ensures turns { (left took : Option (List ℕ))
            → Going left (unread reader.old.held (S.left source.old)) took (K.took sink.old) reader.old.given (held self.old.house)
            (framers_of self.old.streams.places.items) number
            → Turning left (unread reader.new.held (S.left source.new)) (S.left source.new) took (K.took sink.new) reader.new.given (held self.new.house)
            (framers_of self.new.streams.places.items) number result }
    {
        if !take(reader, source, &mut self.line, number)? {
            return Ok(false);
        }
        match self.play(alloc) {
            Ok(()) => {}
            Err(LineFault::Bad) => return Err(Status::Script(number)),
            Err(LineFault::NoMemory) => return Err(Status::NoMemory),
        }
        write_all(sink, self.print.as_slice())?;
        Ok(true)
    }

    /// Plays the line, and makes its print.
    fn play(&mut self, alloc: Global) -> Result<(), LineFault>
        requires { self.old.house.turns < 2 ^ 63 }
        ensures { Plays (held self.old.house) (held self.new.house) (framers_of self.old.streams.places.items)
            (framers_of self.new.streams.places.items) self.old.line.items self.new.print.items result }
    {
        let step = read_line(alloc, self.line.as_slice())?;
        self.take_step(step)
    }

    /// Takes a step: the house its event, or a framer its bytes.
    fn take_step(&mut self, step: Step) -> Result<(), LineFault>
        requires turns { self.old.house.turns < 2 ^ 63 }
        requires fits { StepFits step }
        ensures { PlaysStep (held self.old.house) (held self.new.house) (framers_of self.old.streams.places.items)
            (framers_of self.new.streams.places.items) step self.new.print.items result }
    {
        self.print.clear();
        match step {
            Step::Event(event) => self.take_event(&event),
            Step::Feed { w, bytes } => {
                if w as usize >= self.house.workers() {
                    return Err(LineFault::Bad);
                }
                self.streams
                    .feed(w as usize, bytes.slice(), &mut self.print)?;
                Ok(())
            }
            Step::Fresh { w } => {
                if w as usize >= self.house.workers() {
                    return Err(LineFault::Bad);
                }
                self.streams.begin_again(w as usize);
                Ok(())
            }
            Step::Begin { .. } => Err(LineFault::Bad),
        }
    }

    /// The house takes an event, and the print is that of the reply.
    fn take_event(&mut self, event: &Event) -> Result<(), LineFault>
        requires turns { self.old.house.turns < 2 ^ 63 }
        requires meets { Meets event.now }
        requires print { self.old.print.items ≡ [] }
        ensures { PlaysStep (held self.old.house) (held self.new.house) (framers_of self.old.streams.places.items) (framers_of self.new.streams.places.items)
            (step.Event event.now) self.new.print.items result }
    {
        if event.line() as usize >= self.house.workers() {
            return Err(LineFault::Bad);
        }
        self.frame.clear();
        self.frame.reserve(MOST_FRAME)?;
        let reply = self.house.submit(event, &mut self.frame)?;
        print_reply(&reply, self.frame.as_slice(), &mut self.print)?;
        Ok(())
    }
}
