//! A chat server for one XMPP domain (RFC 6120, RFC 6121).
#![tactic(auto)]

use commands::run::run;
use commands::status_line::StatusLine;
use outside::{Sink, Source};
use outside_net::{NetPorts, ReaderSource, WriterSink};
use script_play::Status;
use stanza_tree::Text;
use std::alloc::Global;
use std::io::Eprint;
use std::net::Net;
use std::process::ExitCode;
use std::random::RandomSource;
use std::sync::Wait;
use std::thread::Threads;
use std::time::Clock;
use std::{env, io};

fn main(rt: HostRuntime) -> ExitCode {
    let status = match words_of(&rt) {
        Ok(words) => {
            let mut source = ReaderSource::new(rt.reader());
            let mut sink = WriterSink::new(io::writer(&rt));
            run_on(&rt, rt.alloc(), words.as_slice(), &mut source, &mut sink)
        }
        Err(status) => status,
    };
    let line = StatusLine(status);
    let _told = eprint!(rt; "{line}");
    ExitCode::from(status.number())
}

/// Runs the command over the network, the clock and the random bytes of this system.
fn run_on<
    R: Threads + Wait + Sync + Net + Clock + RandomSource + Eprint + Clone + Send + Drop,
    S: Source,
    K: Sink,
>(rt: &R, alloc: Global, words: &[Text], source: &mut S, sink: &mut K) -> Status {
    match rt.clone() {
        Ok(copy) => run(rt, alloc, words, source, sink, &mut NetPorts::new(copy)),
        Err(_) => Status::NoMemory,
    }
}

/// The words after the program's name. One that is not UTF-8 is a bad word.
fn words_of(rt: &HostRuntime) -> Result<Vec<Text>, Status> {
    let args = match env::args(rt) {
        Ok(args) => args,
        Err(error) => return Err(without_words(error.kind())),
    };
    let mut words = Vec::new(rt.alloc());
    for word in args.skip(1) {
        match Text::of(rt.alloc(), word.as_bytes()) {
            Ok(text) => words.push(text)?,
            Err(_) => return Err(Status::NoMemory),
        }
    }
    Ok(words)
}

/// The status where the system's words could not be had.
fn without_words(kind: io::ErrorKind) -> Status {
    match kind {
        io::ErrorKind::InvalidData => Status::Usage,
        _ => Status::NoMemory,
    }
}
