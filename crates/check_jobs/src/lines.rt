//! Lines of output.

ghost use Rattle.std.specs.Prelude.{◌≡◌, IfOk, IfErr, string_bytes};
ghost use Rattle.check_jobs.specs.Inputs.{hex_line as hex_line', line_of};
ghost use Rattle.judging.specs.messages.declared.fault.Fault.TheVariants.{Memory};

use judging::messages::Fault;
use std::alloc::Global;

/// A text as a line of output. `Memory`: an allocation failed.
pub fn with_line_end(mut text: String) -> Result<Vec<u8>, Fault>
    ensures line { IfOk result (λ v. v.items ≡ line_of (string_bytes text)) }
    ensures memory { IfErr result (λ e. e ≡ Memory) }
{
    text.push_str("\n")?;
    Ok(text.into_bytes())
}

/// Octets as a line of output: two hexadecimal digits of upper case for each. `Memory`: an allocation failed.
pub fn hex_line(alloc: Global, octets: &[u8]) -> Result<Vec<u8>, Fault>
    ensures line { IfOk result (λ v. v.items ≡ hex_line' octets.now) }
    ensures memory { IfErr result (λ e. e ≡ Memory) }
{
    with_line_end(hex::encode_upper(alloc, octets)?)
}
