//! The commands of the program.
ghost use Rattle.std.specs.Prelude.{◌≡◌, ◌⊎◌, ◌≤◌, ℕ, List, [], ◌∷◌, Some, None, codes};
ghost use Rattle.outside.specs.Devices.{Rose};
ghost use Rattle.commands.specs.Accounts.{Accounted, ReadsAtMost};
ghost use Rattle.serve_run.specs.declared.serving.Serving.{Serving};
ghost use Rattle.serve_run.specs.Services.{tally};
ghost use Rattle.commands.specs.Commands.{Drill, Make, Serve, task_of};
ghost use Rattle.commands.specs.Servings.{Concluded};
ghost use Rattle.drill_run.specs.Endings.{Ends};
ghost use Rattle.script_play.specs.Runs.{Replayed};

use crate::account::account;
use crate::words::{Command, read_words};
use drill_run::drill::drill;
use outside::{Poller, Ports, Sink, Source};
use script_play::Status;
use script_play::replay::replay;
use serve_run::serve;
use stanza_tree::Text;
use std::alloc::Global;
use std::sync::Wait;
use std::thread::Threads;

/// Runs the command of these words: `replay`, which reads a script; `account NAME SALT`, which reads a password line; `serve` with its options,
/// which reads a list of accounts and serves clients at the ports; or `drill N KEY`, which reads nothing. `serve` never returns if a poller hands out links
/// for ever, or a link goes on for ever; the others touch no ports.
pub fn run<R: Threads + Wait + Sync, S: Source, K: Sink, P: Ports>(
    rt: &R,
    alloc: Global,
    words: &[Text],
    source: &mut S,
    sink: &mut K,
    ports: &mut P,
) -> Status
where
    P::Poller: Send + Drop,
    <P::Poller as Poller>::Link: Send + Drop,
    P::Clock: Send + Drop,
    P::Dice: Send + Drop,
    ensures replayed { words.now ≡ codes "replay" ∷ [] → Replayed (S.left source.old) (S.left source.new) (K.took sink.old) (K.took sink.new) result }
    ensures accounted { (name salt : List ℕ) → task_of words.now ≡ Some (Make name salt)
        → Accounted K.took name salt (S.left source.old) (S.left source.new) sink.old sink.new result }
    ensures few { (name salt : List ℕ) → task_of words.now ≡ Some (Make name salt) → ReadsAtMost 258 (S.left source.old) (S.left source.new) }
    ensures served { (w : Serving) → task_of words.now ≡ Some (Serve w)
        → Concluded w (S.left source.old) (S.left source.new)
        (tally (P.tapes ports.old) (P.links ports.old) (P.dice_faults ports.old) (P.address ports.old) (P.drawn ports.old))
        (tally (P.tapes ports.new) (P.links ports.new) (P.dice_faults ports.new) (P.address ports.new) (P.drawn ports.new)) (K.took sink.old) (K.took sink.new) result }
    ensures drilled { (n key : ℕ) → task_of words.now ≡ Some (Drill n key) → Ends K.took n key sink.old sink.new result }
    ensures aside { (n key : ℕ) → task_of words.now ≡ Some (Drill n key) → (source.new ≡ source.old) × (ports.new ≡ ports.old) }
    ensures usage { result ≡ Status.Usage → task_of words.now ≡ None }
    ensures refused { task_of words.now ≡ None → ((result ≡ Status.Usage) ⊎ (result ≡ Status.NoMemory)) × (source.new ≡ source.old) × (sink.new ≡ sink.old)
        × (ports.new ≡ ports.old) }
    ensures read { result ≡ Status.ReadFault → Rose (S.faults source.old) (S.faults source.new) }
    ensures written { result ≡ Status.WriteFault → Rose (K.faults sink.old) (K.faults sink.new) }
    ensures listened { result ≡ Status.ListenFault → Rose (P.faults ports.old) (P.faults ports.new) }
    ensures kept { P.faults ports.old ≤ P.faults ports.new }
{
    match read_words(alloc, words) {
        Ok(Command::Replay) => replay(alloc, source, sink),
        Ok(Command::Account { name, salt }) => account(alloc, &name, salt.as_slice(), source, sink),
        Ok(Command::Serve(serving)) => serve(rt, alloc, &serving, source, sink, ports),
        Ok(Command::Drill { n, key }) => drill(alloc, n, key, sink),
        Err(status) => status,
    }
}
