//! What is printed of a reply, and of an item of a stream.
ghost use Rattle.std.specs.Prelude.{◌≡◌, ◌++◌, OnOk, OnErr, codes};
ghost use Rattle.stanza_tree.specs.Spelling.{text};
ghost use Rattle.replay_script.specs.Prints.{print_of, cause_text, frame_line, line, fault_number, print_item};

use house_model::Reply;
use sm_resume::Cause;
use stanza_tree::{Element, NoMemory, append, write};
use std::alloc::Global;
use stream_frames::{FrameFault, Item};

/// How many bytes the line of an element begins with room for: a chat message's has some 200.
const USUAL_LINE: usize = 512;

/// Appends the line of a reply, whole or not at all. `frame` is the text of the frame that was given. Costs that text.
pub fn print_reply(reply: &Reply, frame: &[u8], out: &mut Vec<u8>) -> Result<(), NoMemory>
    ensures ok { OnOk result (out.new.items ≡ out.old.items ++ print_of reply.now frame.now) }
    ensures err { OnErr result (out.new.items ≡ out.old.items) }
{
    match *reply {
        Reply::Opened(number) => {
            let alloc: Global = *out.allocator();
            let line = format!(in alloc; "opened {}\n", number)?;
            out.extend_from_slice(line.as_bytes())
        }
        Reply::Done => out.extend_from_slice(b"done\n"),
        Reply::Bound => out.extend_from_slice(b"bound\n"),
        Reply::Frame => print_frame(frame, out),
        Reply::Nothing { due: false } => out.extend_from_slice(b"nothing\n"),
        Reply::Nothing { due: true } => out.extend_from_slice(b"nothing due\n"),
        Reply::Absent => out.extend_from_slice(b"absent\n"),
        Reply::Unready => out.extend_from_slice(b"unready\n"),
        Reply::NoUser => out.extend_from_slice(b"no user\n"),
        Reply::Resumed => out.extend_from_slice(b"resumed\n"),
        Reply::Swept(number) => {
            let alloc: Global = *out.allocator();
            let line = format!(in alloc; "swept {}\n", number)?;
            out.extend_from_slice(line.as_bytes())
        }
        Reply::Over(cause) => print_over(cause, out),
    }
}

/// Appends the line of a connection that is over.
fn print_over(cause: Cause, out: &mut Vec<u8>) -> Result<(), NoMemory>
    ensures ok { OnOk result (out.new.items ≡ out.old.items ++ line (codes "over " ++ cause_text cause)) }
    ensures err { OnErr result (out.new.items ≡ out.old.items) }
{
    let alloc: Global = *out.allocator();
    let line = match cause {
        Cause::Moved(conn) => format!(in alloc; "over moved {}\n", conn)?,
        Cause::Replaced(session) => format!(in alloc; "over replaced {}\n", session)?,
        Cause::Overfull { kept, queued } => format!(in alloc;
            "over overfull {} {}\n",
            kept, queued
        )?,
        Cause::TooHigh { h, kept, sent } => {
            format!(in alloc; "over toohigh {} {} {}\n", h, kept, sent)?
        }
        Cause::Flood(answers) => format!(in alloc; "over flood {}\n", answers)?,
        Cause::Closed => format!(in alloc; "over closed\n")?,
        Cause::Lost => format!(in alloc; "over lost\n")?,
    };
    out.extend_from_slice(line.as_bytes())
}

fn print_frame(text: &[u8], out: &mut Vec<u8>) -> Result<(), NoMemory>
    ensures ok { OnOk result (out.new.items ≡ out.old.items ++ frame_line text.now) }
    ensures err { OnErr result (out.new.items ≡ out.old.items) }
{
    // Room for the whole line comes first, so that the line is written as it is made.
    let length = text.len().checked_add(7).ok_or(NoMemory)?;
    out.reserve(length)?;
    append(b"frame ", out);
    append(text, out);
    append(b"\n", out);
    Ok(())
}

/// Appends the line of an item, whole or not at all. Costs the canonical spelling of a top element.
pub fn print_item(item: &Item, out: &mut Vec<u8>) -> Result<(), NoMemory>
    ensures ok { OnOk result (out.new.items ≡ out.old.items ++ print_item item.now) }
    ensures err { OnErr result (out.new.items ≡ out.old.items) }
{
    match item {
        Item::Header { .. } => out.extend_from_slice(b"item header\n"),
        Item::Top(element) => print_top(element, out),
        Item::CloseTag => out.extend_from_slice(b"item close\n"),
        Item::Broken(fault, offset) => {
            let alloc: Global = *out.allocator();
            let line = format!(in alloc; "item broken {} {}\n", number_of(*fault), *offset)?;
            out.extend_from_slice(line.as_bytes())
        }
    }
}

fn print_top(element: &Element, out: &mut Vec<u8>) -> Result<(), NoMemory>
    ensures ok { OnOk result (out.new.items ≡ out.old.items ++ line (codes "item top " ++ text element.now)) }
    ensures err { OnErr result (out.new.items ≡ out.old.items) }
{
    let mut line = Vec::with_capacity(*out.allocator(), USUAL_LINE)?;
    line.extend_from_slice(b"item top ")?;
    write(element, &mut line)?;
    line.push(b'\n')?;
    out.extend_from_slice(line.as_slice())
}

/// The number of a fault, as it is printed.
fn number_of(fault: FrameFault) -> u8
    ensures { result ≡ fault_number fault }
{
    match fault {
        FrameFault::NotWellFormed => 1,
        FrameFault::Restricted => 2,
        FrameFault::BadPrefix => 3,
        FrameFault::BadFormat => 4,
        FrameFault::TooLong => 5,
        FrameFault::TooDeep => 6,
        FrameFault::TooManyAttrs => 7,
        FrameFault::BadEncoding => 8,
    }
}
