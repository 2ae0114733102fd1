//! Where bytes come from and go to. Each source and sink counts its faults.
ghost use Rattle.std.specs.Prelude.{◌≡◌, ℕ, ◌<◌, ◌≤◌, ◌++◌, [], List, length, min, take, drop, Option};
ghost use Rattle.outside.specs.Devices.{Reads, ReadFaults, Writes, WriteFaults};

/// What came of a reading.
#[derive(Clone, Copy, Debug, PartialEq, Eq)]
pub enum Got {
    /// So many bytes stand at the front of the buffer, at least one.
    Bytes(usize),
    /// No more bytes will come.
    End,
    Failed,
}

/// What came of a writing.
#[derive(Clone, Copy, Debug, PartialEq, Eq)]
pub enum Put {
    /// So many bytes of the front were taken, at least one.
    Taken(usize),
    Failed,
}

/// Bytes to be read. A source may tell those that are `left`.
pub trait Source {
    ghost left: { Self → Option (List ℕ) };

    ghost faults: { Self → ℕ };

    fn read(&mut self, into: &mut [u8]) -> Got
        requires { 0 < length into.old }
        ensures reads { Reads (left self.old) (left self.new) result into.new }
        ensures faults { ReadFaults (faults self.old) (faults self.new) result };
}

/// A place for bytes. A sink may tell those that it `took`.
pub trait Sink {
    ghost took: { Self → Option (List ℕ) };

    ghost faults: { Self → ℕ };

    fn write(&mut self, from: &[u8]) -> Put
        requires { 0 < length from.now }
        ensures writes { Writes (took self.old) (took self.new) result from.now }
        ensures faults { WriteFaults (faults self.old) (faults self.new) result };
}

/// Copies the front of these bytes, at most so many, and tells how many they were: none only where there are none.
pub(crate) fn copy_front(bytes: &[u8], into: &mut [u8], most: usize) -> usize
    requires room { 0 < length into.old }
    requires most { 0 < most }
    ensures count { result ≡ min (min (length bytes.now) (length into.old)) most }
    ensures same { take result into.new ≡ take result bytes.now }
    ensures few { result ≤ length bytes.now }
    ensures within { result ≤ length into.new }
    ensures front { bytes.now ≡ take result into.new ++ drop result bytes.now }
    ensures none { result ≡ 0 → bytes.now ≡ [] }
{
    let count = bytes.len().min(into.len()).min(most);
    into[..count].copy_from_slice(&bytes[..count]);
    count
}
