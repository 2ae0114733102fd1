//! Runs the commands of the stories of its standard input, and prints what comes of each.
#![tactic(auto)]

ghost use Rattle.std.specs.Prelude.{◌<◌};

mod story;
mod told;

use std::io::{self, BufWriter, Write};

fn main(rt: HostRuntime) -> io::Result<()> {
    let text = io::read_to_string(rt.alloc(), rt.reader())?;
    let mut out = BufWriter::new(rt.alloc(), io::writer(&rt))?;
    told::tell_all(&rt, rt.alloc(), text.as_str(), &mut out)?;
    out.flush()
}
