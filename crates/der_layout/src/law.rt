//! The law of lengths.

ghost use Rattle.codec_code.specs.Events.{HasOctets, Tree};
ghost use Rattle.std.specs.Prelude.{◌≡◌, List, length, ℕ};
ghost use Rattle.der_layout.specs.Lengths.{octets_in};

/// All octets of a tree have the same number, for any order of members.
pub fn lengths()
    ensures { (t : Tree) (o : List ℕ) → HasOctets t o → length o ≡ octets_in t }
{}
