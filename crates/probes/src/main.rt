//! Calls that tests and benchmarks run by themselves. The word on the command line says which: `growths`, `changes` or `toml`; without
//! one all are made, of the changes some.
#![tactic(auto)]

mod changes;
mod growths;

use changes::change_texts;
use growths::call_each;
use std::env;
use std::io::{self, ErrorKind, Read};

/// Reads the standard input as TOML and does nothing with it: the benchmark compares this with the loading of a profile.
fn read_toml(rt: &HostRuntime) -> io::Result<()> {
    let mut bytes = Vec::new(rt.alloc());
    rt.stdin().read_to_end(&mut bytes)?;
    match toml::table_from_slice(rt.alloc(), bytes.as_slice()) {
        Ok(_) => println!(rt; "a table"),
        Err(_) => println!(rt; "no table"),
    }
}

fn run(rt: &HostRuntime, word: Option<&str>) -> io::Result<()> {
    match word {
        None => {
            call_each(rt, rt.alloc())?;
            change_texts(rt, rt.alloc(), false)?;
            read_toml(rt)
        }
        Some("growths") => call_each(rt, rt.alloc()),
        Some("changes") => change_texts(rt, rt.alloc(), true),
        Some("toml") => read_toml(rt),
        Some(_) => Err(ErrorKind::InvalidInput.into()),
    }
}

fn main(rt: HostRuntime) -> io::Result<()> {
    match env::args(&rt) {
        Ok(mut args) => {
            // the first word is the program's own name
            let word = args.nth(1);
            run(&rt, word.as_ref().map(String::as_str))
        }
        Err(error) if error.kind() == ErrorKind::OutOfMemory => println!(rt; "arguments Memory"),
        Err(error) => Err(error),
    }
}
