//! Octets sent as a whole, in as many calls as the sink needs.

ghost use Rattle.sinks.specs.Sent.{SentAll, SentFront, state};
ghost use Rattle.std.specs.Prelude.{◌≡◌, ◌<◌, IfErr, OnOk};

use crate::sink::Sink;

/// Sends all octets to the sink, in as many calls as it needs. The error is how many octets went out before the one
/// call that failed, which isn't tried again. If there are no octets there is no call.
pub fn send_all<S: Sink>(sink: &mut S, octets: &[u8]) -> Result<(), u64>
    requires { S.failed sink.old < u64.MAX }
    // The sink has taken exactly these octets, and no call failed.
    ensures ok { OnOk result (SentAll
        (state (S.taken sink.old) (S.failed sink.old))
        (state (S.taken sink.new) (S.failed sink.new))
        octets.now) }
    // The sink has taken exactly the first n, fewer than there are, and one call failed.
    ensures err { IfErr result (λ n. SentFront
        (state (S.taken sink.old) (S.failed sink.old))
        (state (S.taken sink.new) (S.failed sink.new))
        octets.now
        n) }
{
    let mut at = 0;
    while at < octets.len() {
        match sink.put(&octets[at..]) {
            Ok(0) => return Err(at as u64),
            Ok(count) => at += count,
            Err(_) => return Err(at as u64),
        }
    }
    Ok(())
}
