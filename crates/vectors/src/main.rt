// Runs the cases that data/index lists, a line each; tries every prefix of the files that data/prefixes names; makes the session
// calls of data/calls. What it must print was written by hand.
#![tactic(auto)]

mod calls;
mod prefixes;
mod words;

use behaviour::{Behaviour, Refusal};
use calls::Play;
use std::io;
use std::rt::Files;

// The file's bytes, as many as `buffer` takes.
fn load<'a>(rt: &impl Files, path: &[u8], buffer: &'a mut [u8]) -> &'a [u8] {
    let n = files::load(rt, path, buffer);
    &buffer[..n]
}

fn read_named(rt: &impl Files, path: &[u8]) -> Result<Behaviour, Refusal> {
    let mut buffer = [0u8; 4097];
    aut::read_file(load(rt, path, &mut buffer))
}

// A single file: is it taken, or which refusal?
fn run_file(rt: &(impl Files + Print), path: &[u8]) -> io::Result<()> {
    match read_named(rt, path) {
        Ok(_) => println!(rt; "taken"),
        Err(refusal) => println!(rt; "{refusal}"),
    }
}

// The report in one line: its first line, and then the labels of the run.
fn print_labels(rt: &impl Print, report: &[u8]) -> io::Result<()> {
    let end = report
        .iter()
        .position(|b| *b == b'\n')
        .unwrap_or(report.len());
    rt.write_all(&report[..end])?;
    for label in report[end..].split(|b| *b == b'"').skip(1).step_by(2) {
        rt.write_all(b" ")?;
        rt.write_all(label)?;
    }
    println!(rt;)
}

fn run_pair(rt: &(impl Files + Print), client: &[u8], server: &[u8]) -> io::Result<()> {
    let mut text = [0u8; 320000];
    let n = files::judge(rt, client, server, &mut text);
    print_labels(rt, &text[..n])
}

// The case's name, and what came of its one file or two, with a space before each.
fn run_case(rt: &(impl Files + Print), line: &[u8]) -> io::Result<()> {
    let Some((name, files)) = words::split_once(line) else {
        rt.write_all(line)?;
        return rt.write_all(b" ");
    };
    rt.write_all(name)?;
    rt.write_all(b" ")?;
    match words::split_once(files) {
        Some((client, server)) => run_pair(rt, client, server),
        None => run_file(rt, files),
    }
}

// Runs each line of the list.
fn run_list<F: FnMut(&[u8]) -> io::Result<()>>(
    rt: &impl Files,
    path: &[u8],
    mut run: F,
) -> io::Result<()>
    requires { F.IsAlwaysCallable run }
{
    let mut buffer = [0u8; 8192];
    let list = load(rt, path, &mut buffer);
    for line in list.split_inclusive(|b| *b == b'\n') {
        run(line.strip_suffix(b"\n").unwrap_or(line))?;
    }
    Ok(())
}

fn main(rt: HostRuntime) -> io::Result<()> {
    run_list(&rt, b"index", |line| run_case(&rt, line))?;
    run_list(&rt, b"prefixes", |path| prefixes::run(&rt, path))?;
    let mut play = Play::new(&rt, b"");
    run_list(&rt, b"calls", |line| play.run(&rt, line))
}
