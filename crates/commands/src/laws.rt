//! What follows from the contract of [`run`].
ghost use Rattle.std.specs.Prelude.{◌≡◌, ◌⊎◌, ◌≤◌, ℕ, List, [], ◌∷◌, Ok, Some, None, codes, length};
ghost use Rattle.account_book.specs.Entries.{Entry};
ghost use Rattle.serve_run.specs.declared.serving.Serving.{Serving};
ghost use Rattle.serve_run.specs.Limits.{most_list};
ghost use Rattle.serve_run.specs.Services.{entries_for};
ghost use Rattle.commands.specs.Accounts.{Accounted, IsPasswordLine};
ghost use Rattle.commands.specs.Commands.{Drill, Make, Serve, task_of};
ghost use Rattle.drill_run.specs.Endings.{Ends};
ghost use Rattle.script_play.specs.Runs.{Replayed};
ghost use Rattle.replay_script.specs.Valid.{IsValid};

use crate::run::run;
use outside::{CleanPorts, CleanSink, CleanSource};
use script_play::Status;
use stanza_tree::Text;
use std::alloc::Global;
use std::sync::Wait;
use std::thread::Threads;

/// Over a source and a sink that never fail, `account` does its work where the source is a password line, but for want of memory.
pub fn accounts_are_made<R: Threads + Wait + Sync>(
    rt: &R,
    alloc: Global,
    words: &[Text],
    source: &mut CleanSource,
    sink: &mut CleanSink,
    ports: &mut CleanPorts,
) -> Status
    requires task { (name : List ℕ) × ((salt : List ℕ) × (task_of words.now ≡ Some (Make name salt))) }
    requires line { (password : List ℕ) × IsPasswordLine password source.old }
    ensures ends { (result ≡ Status.Done) ⊎ (result ≡ Status.NoMemory) }
    ensures accounted { (name salt : List ℕ) → task_of words.now ≡ Some (Make name salt)
        → Accounted (λ _. None) name salt (Some source.old) (Some source.new) sink.old sink.new result }
{
    run(rt, alloc, words, source, sink, ports)
}

/// Over a source and a sink that never fail, `replay` plays a valid script to its end, but for want of memory.
pub fn valid_scripts_are_played<R: Threads + Wait + Sync>(
    rt: &R,
    alloc: Global,
    words: &[Text],
    source: &mut CleanSource,
    sink: &mut CleanSink,
    ports: &mut CleanPorts,
) -> Status
    requires task { words.now ≡ codes "replay" ∷ [] }
    requires valid { IsValid source.old }
    ensures ends { (result ≡ Status.Done) ⊎ (result ≡ Status.NoMemory) }
    ensures replayed { Replayed (Some source.old) (Some source.new) None None result }
{
    run(rt, alloc, words, source, sink, ports)
}

/// Over a source, a sink and ports that never fail, `serve` serves a list of accounts without a fault to the end, but for want of memory.
pub fn valid_lists_are_served<R: Threads + Wait + Sync>(
    rt: &R,
    alloc: Global,
    words: &[Text],
    source: &mut CleanSource,
    sink: &mut CleanSink,
    ports: &mut CleanPorts,
) -> Status
    requires task { (w : Serving) × (task_of words.now ≡ Some (Serve w)) }
    requires short { (w : Serving) → task_of words.now ≡ Some (Serve w) → length source.old ≤ most_list w.sessions }
    requires valid { (w : Serving) → task_of words.now ≡ Some (Serve w)
        → (entries : List Entry) × (entries_for w.sessions source.old ≡ Ok entries) }
    ensures ends { (result ≡ Status.Done) ⊎ (result ≡ Status.NoMemory) }
{
    run(rt, alloc, words, source, sink, ports)
}

/// Over a sink that never fails, `drill` runs its drill to the end, but for want of memory.
pub fn drills_are_run<R: Threads + Wait + Sync>(
    rt: &R,
    alloc: Global,
    words: &[Text],
    source: &mut CleanSource,
    sink: &mut CleanSink,
    ports: &mut CleanPorts,
) -> Status
    requires task { (n : ℕ) × ((key : ℕ) × (task_of words.now ≡ Some (Drill n key))) }
    ensures ends { (result ≡ Status.Done) ⊎ (result ≡ Status.NoMemory) }
    ensures drilled { (n key : ℕ) → task_of words.now ≡ Some (Drill n key) → Ends (λ _. None) n key sink.old sink.new result }
{
    run(rt, alloc, words, source, sink, ports)
}
