//! Plays the stories of connections of its standard input, and prints what comes of each.
#![tactic(auto)]

mod lines;
mod play;
mod script;
mod shown;
mod told;

use std::io::{self, BufWriter, Read, Write};

fn main(rt: HostRuntime) -> io::Result<()> {
    let mut text = Vec::new(rt.alloc());
    rt.reader().read_to_end(&mut text)?;
    let mut told = Vec::new(rt.alloc());
    if told::tell_all(&rt, rt.alloc(), text.as_slice(), &mut told).is_err() {
        return Err(io::Error::from(io::ErrorKind::OutOfMemory));
    }
    let mut out = BufWriter::new(rt.alloc(), io::writer(&rt))?;
    out.write_all(told.as_slice())?;
    out.flush()
}
