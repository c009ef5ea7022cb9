//! Calls of libraries, and the time that they take.

use crate::lines::{Work, print_finding, print_rate};
use crate::modules::Target;
use asn_base::value::Value;
use ber_reader::read_ber;
use der_writer::{Sink, write_der, write_der_to};
use front_end::constraints::bound_table;
use front_end::tagging::Tagged;
use packed_reader::read_uper;
use packed_writer::write_uper;
use std::alloc::Global;
use std::io;
use std::time::{Duration, Instant};

/// How often calls are repeated. The least time counts.
const RUNS: usize = 3;

/// A call that is measured.
#[derive(Clone, Copy)]
pub enum Call<'t> {
    /// Finding the tokens of a text.
    Lex(&'t [u8]),
    /// Finding what constraints allow.
    Bound(&'t Tagged<'t>),
    /// Encoding by the distinguished rules, into a list.
    Write(Target<'t>, &'t Value),
    /// The same to a sink that keeps nothing.
    Send(Target<'t>, &'t Value),
    /// Decoding by the basic rules.
    Read(Target<'t>, &'t [u8]),
    /// Encoding in canonical PER.
    Pack(Target<'t>, &'t Value),
    /// Decoding canonical PER.
    Unpack(Target<'t>, &'t [u8]),
}

/// A sink that keeps nothing.
#[derive(Drop)]
struct Nowhere {
    failures: u64,
}

impl Sink for Nowhere {
    ghost use Rattle.std.specs.Prelude.{None};

    ghost taken = { λ s. None };

    ghost failed = { λ s. s.failures };

    fn failures(&self) -> u64 {
        self.failures
    }

    fn put(&mut self, octets: &[u8]) -> io::Result<usize> {
        Ok(octets.len())
    }
}

/// Encodes a value to a sink that keeps nothing.
fn send(alloc: Global, target: Target<'_>, value: &Value) -> bool {
    let mut sink = Nowhere { failures: 0 };
    write_der_to(alloc, &target.kit.code, target.id, value, &mut sink).is_ok()
}

impl Call<'_> {
    /// What the call does, in print.
    fn name(self) -> &'static str {
        match self {
            Call::Lex(_) => "lexed",
            Call::Bound(_) => "bounded",
            Call::Write(_, _) => "written to a list",
            Call::Send(_, _) => "written to a sink",
            Call::Read(_, _) => "read",
            Call::Pack(_, _) => "written in PER",
            Call::Unpack(_, _) => "read from PER",
        }
    }

    /// Makes the call. The result is whether it succeeds.
    fn make(self, alloc: Global) -> bool {
        match self {
            Call::Lex(text) => text::lex(alloc, text).is_ok(),
            Call::Bound(tagged) => bound_table(alloc, tagged).is_ok(),
            Call::Write(to, value) => write_der(alloc, &to.kit.code, to.id, value).is_ok(),
            Call::Send(to, value) => send(alloc, to, value),
            Call::Read(of, octets) => read_ber(alloc, &of.kit.code, of.id, octets).is_ok(),
            Call::Pack(to, value) => write_uper(alloc, &to.kit.packed, to.id, value).is_ok(),
            Call::Unpack(of, octets) => read_uper(alloc, &of.kit.packed, of.id, octets).is_ok(),
        }
    }

    /// Makes the call this number of times. The result is whether it succeeds each time.
    fn repeat(self, alloc: Global, times: usize) -> bool {
        let mut is_done = true;
        for _ in 0..times {
            is_done = self.make(alloc) && is_done;
        }
        is_done
    }
}

/// Makes a call a number of times, and prints the least time of some runs.
pub fn measure(rt: &HostRuntime, name: &str, call: Call<'_>, work: Work) -> io::Result<()> {
    let mut least = Duration::MAX;
    let mut is_done = true;
    for _ in 0..RUNS {
        let start = Instant::now(rt)?;
        is_done = call.repeat(rt.alloc(), work.times) && is_done;
        least = least.min(start.elapsed(rt)?);
    }
    if !is_done {
        print_finding(rt, name, "a call fails")?;
    }
    print_rate(rt, name, call.name(), work, least)
}

/// Measures calls that each read or write the encoding of a value, which has so many octets. A short encoding is read
/// or written up to 300 times.
pub fn measure_each(
    rt: &HostRuntime,
    name: &str,
    octets: usize,
    calls: &[Call<'_>],
) -> io::Result<()> {
    let times = (300_000 / octets.max(1)).clamp(1, 300);
    for call in calls {
        measure(rt, name, *call, Work { times, octets })?;
    }
    Ok(())
}
