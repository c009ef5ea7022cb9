//! Numbers of 128 bits in two halves, which need an alignment of only 8 octets.

ghost use Rattle.std.specs.Prelude.{◌≡◌};
ghost use Rattle.views.specs.PackedI128.{number_of};

/// A number of 128 bits: the higher and the lower 64 of them, in two's complement.
#[derive(Clone, Copy)]
pub(crate) struct PackedI128 {
    pub high: u64,
    pub low: u64,
}

/// 2^64.
const HALF: u128 = 18_446_744_073_709_551_616;

impl PackedI128 {
    /// The halves of a number.
    pub(crate) fn of(number: i128) -> Self
        ensures { number_of result ≡ number }
    {
        let bits = number.cast_unsigned();
        PackedI128 {
            high: (bits / HALF) as u64,
            low: (bits % HALF) as u64,
        }
    }

    /// The number of these halves.
    #[inline(always)]
    pub(crate) fn number(self) -> i128
        ensures { result ≡ number_of self }
    {
        let bits = self.high as u128 * HALF + self.low as u128;
        bits.cast_signed()
    }
}
