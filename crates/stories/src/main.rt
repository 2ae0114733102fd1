//! Plays the stories of its standard input, and prints what comes of each.
#![tactic(auto)]

mod told;

use std::io::{self, BufWriter, Read, Write};

fn main(rt: HostRuntime) -> io::Result<()> {
    let mut text = Vec::new(rt.alloc());
    rt.reader().read_to_end(&mut text)?;
    let mut out = BufWriter::new(rt.alloc(), io::writer(&rt))?;
    told::tell_all(rt.alloc(), text.as_slice(), &mut out)?;
    out.flush()
}
