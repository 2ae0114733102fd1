//! What a run adds to the elements that are being made. Each call answers whether there was memory, and else changes nothing.

ghost use Rattle.std.specs.Prelude.{◌≡◌, ◌<◌, ◌≤◌, ◌++◌, ◌==◌, not, take, length, true, false, IsUtf8, vec_len, vec_capacity, string_bytes};
ghost use Rattle.stream_frames.specs.Builds.{tag_of, building};
ghost use Rattle.stream_frames.specs.Markup.{has_parent};
ghost use Rattle.stream_frames.specs.Runs.{has_opened, named_on, closing_left, closing_on};

use crate::built::Builder;
use crate::tracker::Tracker;
use std::str;

/// Bytes that are known to be UTF-8 as a text.
fn text_of(bytes: &[u8]) -> &str
    requires { IsUtf8 bytes.now }
    ensures { result.now ≡ bytes.now }
{
    unsafe { str::from_utf8_unchecked(bytes) }
}

/// Adds bytes that are UTF-8 to a text. A byte that comes alone is added as a character. Answers whether there was memory.
fn push_run(text: &mut String, run: &[u8]) -> bool
    requires { IsUtf8 run.now }
    ensures added { result ≡ true → string_bytes text.new ≡ string_bytes text.old ++ run.now }
    ensures kept { result ≡ false → string_bytes text.new ≡ string_bytes text.old }
{
    match run {
        [byte] if *byte < 128 => text.push(*byte as char).is_ok(),
        _ => text.push_str(text_of(run)).is_ok(),
    }
}

/// Adds bytes. Answers whether there was memory.
fn add_run(bytes: &mut Vec<u8>, run: &[u8]) -> bool
    ensures added { result ≡ true → bytes.new.items ≡ bytes.old.items ++ run.now }
    ensures kept { result ≡ false → bytes.new.items ≡ bytes.old.items }
{
    match run {
        [byte] => bytes.push(*byte).is_ok(),
        _ => bytes.extend_from_slice(run).is_ok(),
    }
}

impl Builder {
    /// Adds words to the innermost element. Without one it answers no.
    pub(crate) fn add_plain_words(&mut self, run: &[u8]) -> bool
        requires { IsUtf8 run.now }
        ensures inside { result ≡ true → has_opened (building self.old).opened ≡ true }
        ensures added { result ≡ true → building self.new ≡ record (building self.old) { words = (building self.old).words ++ run.now } }
        ensures kept { result ≡ false → building self.new ≡ building self.old }
    {
        if self.innermost.is_none() {
            return false;
        }
        push_run(&mut self.words, run)
    }

    /// Adds to the value that is being read.
    pub(crate) fn add_plain_value(&mut self, run: &[u8]) -> bool
        requires { IsUtf8 run.now }
        ensures added { result ≡ true → building self.new ≡ record
            (building self.old) { tag = record (tag_of self.old) { value = (tag_of self.old).value ++ run.now } } }
        ensures kept { result ≡ false → building self.new ≡ building self.old }
    {
        push_run(&mut self.value, run)
    }

    /// Whether the header of the stream has come.
    pub(crate) fn has_header(&self) -> bool
        ensures { result ≡ not (length (building self.now).layers == 0) }
    {
        !self.layers.is_empty()
    }

    /// Whether an element is open in the stream's.
    pub(crate) fn has_open(&self) -> bool
        ensures { result ≡ has_opened (building self.now).opened }
    {
        self.innermost.is_some()
    }

    /// Whether an element is open in one of those.
    pub(crate) fn has_parent(&self) -> bool
        ensures { result ≡ true → has_parent (building self.now).opened ≡ true }
    {
        self.innermost.is_some() && !self.others.is_empty()
    }

    /// Makes room for an attribute more.
    pub(crate) fn reserve_attribute(&mut self) -> bool
        ensures kept { building self.new ≡ building self.old }
        ensures room { result ≡ true → vec_len self.new.attributes < vec_capacity self.new.attributes }
    {
        self.attributes.reserve(1).is_ok()
    }

    /// Adds to the name of the attribute that is being read.
    pub(crate) fn add_attribute_name(&mut self, run: &[u8]) -> bool
        ensures added { result ≡ true → building self.new ≡ record
            (building self.old) { tag = record (tag_of self.old) { attribute = (tag_of self.old).attribute ++ run.now } } }
        ensures kept { result ≡ false → building self.new ≡ building self.old }
    {
        add_run(&mut self.attribute, run)
    }

    /// Adds to the name of the start tag that is being read, here and in the tracker.
    pub(crate) fn add_start_name(&mut self, tracker: &mut Tracker, run: &[u8]) -> bool
        ensures added { result ≡ true → (building self.new ≡ record
            (building self.old) { tag = record (tag_of self.old) { name = (tag_of self.old).name ++ run.now } })
            × (tracker.new ≡ record tracker.old { frame = named_on tracker.old.frame run.now }) }
        ensures kept { result ≡ false → (building self.new ≡ building self.old) × (tracker.new ≡ tracker.old) }
    {
        if self.name.reserve(run.len()).is_err() || !tracker.add_start_name(run) {
            return false;
        }
        match self.name.extend_from_slice(run) {
            Ok(()) => true,
            Err(_) => unreachable!(),
        }
    }

    /// Goes on in the name of an end tag by as many of the bytes as are its next, or by none where there is no memory: how many.
    #[tactic(auto, using(crate::proofs::RunEnds::closing_same, crate::proofs::RunEnds::none_named))]
    pub(crate) fn add_end_name(&mut self, tracker: &mut Tracker, bytes: &[u8]) -> usize
        ensures fits { result ≤ length bytes.now }
        ensures same { closing_left tracker.old.frame ≡ take result bytes.now ++ closing_left tracker.new.frame }
        ensures tracked { tracker.new ≡ record tracker.old { frame = closing_on tracker.old.frame (closing_left tracker.new.frame) } }
        ensures added { building self.new ≡ record (building self.old) {
          tag = record
              (building self.old).tag { name = (building self.old).tag.name ++ take result bytes.now };
        } }
    {
        if self.name.reserve(bytes.len()).is_err() {
            return 0;
        }
        let count = tracker.add_end_name(bytes);
        match self.name.extend_from_slice(&bytes[..count]) {
            Ok(()) => count,
            Err(_) => unreachable!(),
        }
    }
}
