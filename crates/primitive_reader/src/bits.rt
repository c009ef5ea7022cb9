//! The contents octets of a BIT STRING (X.690, 8.6.2).

ghost use Rattle.encodings.specs.Strings.{WholeBits};
ghost use Rattle.primitive_reader.specs.Leaves.{bits_but};
ghost use Rattle.std.specs.Prelude.{◌≡◌, ◌∷◌, Bool, IfNone, IfSome, List};

use crate::number::are_octets;

/// How many bits of the last octet are unused, and the octets after the initial octet, which has that number (8.6.2).
/// The result is None if the octets are not those of a BIT STRING.
#[tactic(auto, using(crate::proofs::Lists::are_bits, crate::proofs::Lists::no_bits, crate::proofs::Lists::many_unused, crate::proofs::Lists::unused_of_none))]
pub fn read_bits(octets: &[u8]) -> Option<(u8, &[u8])>
    ensures split { IfSome result (λ r. octets.now ≡ r.0 ∷ r.1.now) }
    ensures some { IfSome result (λ r. WholeBits (bits_but r.0 r.1.now) octets.now) }
    ensures none { IfNone result ((s : List Bool) → WholeBits s octets.now → ⊥) }
{
    let Some((unused, following)) = octets.split_first() else {
        return None;
    };
    let unused = *unused;
    if unused > 7 {
        return None;
    }
    if following.len() == 0 && unused > 0 {
        return None;
    }
    are_octets(following);
    Some((unused, following))
}
