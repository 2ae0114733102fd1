//! What is being made of a stream, kept small between elements.

ghost use Rattle.std.specs.Prelude.{◌≡◌, true, None, OnOk};
ghost use Rattle.std.specs.Option.{is_some};
ghost use Rattle.stream_grammar.specs.machine.Building.{nothing_built};
ghost use Rattle.stream_frames.specs.Works.{work_of};

use crate::built::Builder;
use stanza_tree::{NoMemory, Several};
use std::alloc::Global;
use std::mem;
use stream_grammar::{Binding, Item};

/// The bindings of a stream; or, as long as there is more, a builder that has them.
#[derive(Drop)]
pub(crate) struct Work {
    alloc: Global,
    layers: Vec<Several<Binding>>,
    pub(crate) builder: Option<Box<Builder>>,
}

impl Work {
    /// Nothing of a stream yet. Takes no memory.
    pub(crate) fn new(alloc: Global) -> Work
        ensures { work_of result ≡ nothing_built }
    {
        Work {
            alloc,
            layers: Vec::new(alloc),
            builder: None,
        }
    }

    /// From now on there is a builder.
    pub(crate) fn open(&mut self) -> Result<(), NoMemory>
        ensures kept { work_of self.new ≡ work_of self.old }
        ensures open { OnOk result (is_some self.new.builder ≡ true) }
    {
        if self.builder.is_some() {
            return Ok(());
        }
        let layers = mem::replace(&mut self.layers, Vec::new(self.alloc));
        match Box::new(self.alloc, Builder::on(self.alloc, layers)) {
            Ok(builder) => {
                self.builder = Some(builder);
                Ok(())
            }
            Err(failed) => {
                self.layers = failed.value.into_layers();
                Err(NoMemory)
            }
        }
    }

    /// Whether an item waits.
    pub(crate) fn has_item(&self) -> bool
        ensures { result ≡ is_some (work_of self.now).item }
    {
        match &self.builder {
            Some(builder) => builder.item.is_some(),
            None => false,
        }
    }

    /// The item that waits.
    pub(crate) fn take_item(&mut self) -> Option<Item>
        ensures item { result ≡ (work_of self.old).item }
        ensures left { work_of self.new ≡ record (work_of self.old) { item = None } }
    {
        match &mut self.builder {
            Some(builder) => builder.item.take(),
            None => None,
        }
    }

    /// Whether there is a builder that has nothing but bindings.
    pub(crate) fn is_idle(&self) -> bool {
        match &self.builder {
            Some(builder) => builder.is_idle(),
            None => false,
        }
    }

    /// Gives a builder up that has nothing but bindings.
    pub(crate) fn release(&mut self)
        ensures { work_of self.new ≡ work_of self.old }
    {
        let Some(builder) = self.builder.take() else {
            return;
        };
        if builder.is_idle() {
            self.layers = Box::into_inner(builder).into_layers();
            self.layers.shrink_to_fit();
        } else {
            self.builder = Some(builder);
        }
    }
}
