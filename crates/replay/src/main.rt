// Reads a script of calls, makes each of them on one desk, and writes each answer.
#![tactic(auto)]

mod lines;

use calling::State;
use lines::Lines;
use std::env::{Env, FillError};
use std::fs::File;
use std::io::{Error, ErrorKind, Read};
use std::str::from_utf8;

// Makes the calls of the script to its end, or to a read that fails. Nothing says that an input ends: a count of lines that no run uses up
// does.
fn make_calls<R: Read>(reader: &mut R, state: &mut State) -> Result<(), Error> {
    let mut lines = Lines::new();
    let mut bytes = [0u8; 20000];
    for n in 1..u64::MAX {
        let Some(kept) = lines.next_line(reader)? else {
            return Ok(());
        };
        state.answer_line(n, lines.line(kept), &mut bytes);
    }
    Err(Error::from(ErrorKind::Other))
}

// Runs the script, and writes the answers that wait.
fn run<R: Read>(reader: &mut R) -> Result<(), Error> {
    let mut state = State::new();
    let done = make_calls(reader, &mut state);
    state.out.flush();
    done
}

// One line on standard error: what couldn't be read, and why.
fn fail(rt: &HostRuntime, name: &str, error: Error) {
    let _ = eprintln!(rt; "replay: {name}: {error}");
}

// Runs the script of standard input.
fn run_input(rt: &HostRuntime) {
    let mut input = rt.stdin();
    if let Err(error) = run(&mut input) {
        fail(rt, "standard input", error);
    }
}

// Runs the script of a file.
fn run_file(rt: &HostRuntime, name: &str) {
    match File::open(rt, name) {
        Ok(mut file) => {
            if let Err(error) = run(&mut file) {
                fail(rt, name, error);
            }
        }
        Err(error) => fail(rt, name, error),
    }
}

fn main(rt: HostRuntime) {
    let mut name = [0u8; 4096];
    match rt.arg(1, &mut name) {
        Ok(n) => match from_utf8(&name[..n]) {
            Ok(path) => run_file(&rt, path),
            Err(_) => fail(
                &rt,
                "the script's name",
                Error::from(ErrorKind::InvalidInput),
            ),
        },
        Err(FillError::TooLong) => fail(
            &rt,
            "the script's name",
            Error::from(ErrorKind::InvalidInput),
        ),
        Err(FillError::NotPresent) => run_input(&rt),
    }
}
