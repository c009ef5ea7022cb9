//! The rules that the distinguished rules add to the basic ones (X.690, 10 and 11).

ghost use Rattle.der_check.specs.Strict.{IsEarlier};
ghost use Rattle.std.specs.Prelude.{◌≡◌, ◌<◌, ◌+◌, ◌^◌};

/// What the distinguished rules ask besides the basic ones.
#[derive(Clone, Copy)]
pub enum RuleOfDer {
    /// A length has the fewest octets (10.1).
    FewestLengthOctets,
    /// A string is primitive (10.2).
    PrimitiveString,
    /// The components of a SET are in the order of their tags (10.3).
    OrderOfTags,
    /// TRUE has all bits set (11.1).
    AllBitsOfTrue,
    /// Unused bits are zeros (11.2.1).
    ZerosAsUnusedBits,
    /// Named bits end in a one (11.2.2).
    LastNamedBit,
    /// A component that has its DEFAULT value is absent (11.5).
    NoDefault,
    /// The elements of a SET OF are in ascending order of their encodings (11.6).
    OrderOfElements,
}

/// A rule that octets break, and the offset at which they break it. The offset counts from 0.
#[derive(Clone, Copy)]
pub struct Breach {
    pub rule: RuleOfDer,
    pub offset: usize,
}

/// The same breach of octets that start at some distance in others.
pub(crate) fn moved(breach: Breach, distance: usize) -> Breach
    ensures rule { result.rule ≡ breach.rule }
    ensures offset { distance + breach.offset < 2 ^ 64 → result.offset ≡ distance + breach.offset }
{
    Breach {
        rule: breach.rule,
        offset: breach.offset.saturating_add(distance),
    }
}

/// The breach at the lower offset. It is the first one if both are at the same offset, and the second one if there is
/// no other.
pub(crate) fn earlier(first: Option<Breach>, second: Breach) -> Breach
    ensures { IsEarlier first second result }
{
    match first {
        Some(first) => {
            if second.offset < first.offset {
                second
            } else {
                first
            }
        }
        None => second,
    }
}
