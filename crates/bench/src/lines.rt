//! The lines that are printed.

use std::io;
use std::io::ErrorKind;
use std::time::{Duration, Instant};

/// Prints how many of something there are.
pub fn print_count(rt: &HostRuntime, name: &str, count: usize, what: &str) -> io::Result<()> {
    println!(rt; "{name}: {count} {what}")
}

/// Prints what is found.
pub fn print_finding(rt: &HostRuntime, name: &str, what: &str) -> io::Result<()> {
    println!(rt; "{name}: {what}")
}

/// Prints why something with a name is refused. The result is an error.
pub fn refused<T>(rt: &HostRuntime, name: &str, why: &str) -> io::Result<T> {
    print_finding(rt, name, why)?;
    Err(io::Error::from(ErrorKind::InvalidInput))
}

/// Prints the time since a call began.
pub fn print_since(rt: &HostRuntime, start: Instant, name: &str, what: &str) -> io::Result<()> {
    let micros = start.elapsed(rt)?.as_micros();
    eprintln!(rt; "{name}, {what}: {micros} us")
}

/// How often a call is made, and how many octets it reads or writes each time.
#[derive(Clone, Copy)]
pub struct Work {
    pub times: usize,
    pub octets: usize,
}

/// Prints the time of calls, and how many megabytes they read or write in a second.
pub fn print_rate(
    rt: &HostRuntime,
    name: &str,
    what: &str,
    work: Work,
    time: Duration,
) -> io::Result<()> {
    let micros = time.as_micros().max(1);
    let rate = (work.octets as u128).wrapping_mul(work.times as u128) / micros;
    eprintln!(rt;
        "{name}, {} times {what}: {micros} us, {rate} MB/s",
        work.times
    )
}
