//! The program: the top call over the words of the command line, standard input and standard output.
#![tactic(auto)]

use mako_cli::top;
use mako_io::{StdSink, StdSource};
use std::env::Env;
use std::process::ExitCode;
use std::{env, io};

/// The words after the program's name.
fn words(rt: &(impl Env + AllocGlobal)) -> io::Result<Vec<String>> {
    Ok(env::args(rt)?.skip(1).collect(rt.alloc())?)
}

/// Words that cannot be had as text are no command.
fn main(rt: HostRuntime) -> ExitCode {
    let words = words(&rt).unwrap_or(Vec::new(rt.alloc()));
    let mut source = StdSource::new(&rt);
    let mut sink = StdSink::new(&rt);
    ExitCode::from(top(&rt, rt.alloc(), &words, &mut source, &mut sink).status)
}
