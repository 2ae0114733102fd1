//! What people are told of how a run ended.

use script_play::Status;
use std::fmt;

/// The line that tells people how a run ended, with its line feed. Of a run that did its work it is empty.
#[derive(Clone, Copy)]
pub struct StatusLine(pub Status);

impl fmt::Display for StatusLine {
    ghost use Rattle.std.specs.Prelude.{Some};
    ghost use Rattle.commands.specs.StatusLines.{status_line};

    ghost output = { λ line. Some (status_line line.0) };

    fn fmt<W: fmt::Write>(&self, f: &mut fmt::Formatter<W>) -> fmt::Result {
        match self.0 {
            Status::Done => Ok(()),
            Status::Usage => f.write_str("xmppd: bad words\n"),
            Status::Accounts(line) => writeln!(f, "xmppd: accounts line {line}"),
            Status::Script(line) => writeln!(f, "xmppd: script line {line}"),
            Status::ReadFault => f.write_str("xmppd: read fault\n"),
            Status::WriteFault => f.write_str("xmppd: write fault\n"),
            Status::ListenFault => f.write_str("xmppd: listen fault\n"),
            Status::NoMemory => f.write_str("xmppd: no memory\n"),
        }
    }
}
