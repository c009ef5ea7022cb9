//! Names that may have been meant for one another.

ghost use Rattle.std.specs.Prelude.{◌≡◌, ◌≤◌, ◌<◌, ◌-◌, drop, false, get_or, length};
ghost use Rattle.std.specs.Char.{eq_ignore_ascii_case};
ghost use Rattle.suggestions.specs.Near.{are_near, are_swapped, common_end, common_front};
ghost use Rattle.suggestions.specs.Near.{is_slip, is_slip_before_end, is_slip_in, without_end};

/// The number of octets that two texts have in common at the start, without regard to the case of letters.
#[tactic(auto, using(crate::proofs::Fronts::whole_front))]
fn common_front(one: &[u8], other: &[u8]) -> usize
    ensures within { result ≤ length one.now }
    ensures within_other { result ≤ length other.now }
    ensures common { result ≡ common_front one.now other.now }
{
    let least = one.len().min(other.len());
    for place in 0..least {
        if !one[place].eq_ignore_ascii_case(&other[place]) {
            return place;
        }
    }
    least
}

/// Whether the octets at a place, counted from the end, are the same without regard to the case of letters.
fn are_like(one: &[u8], other: &[u8], place: usize) -> bool
    requires one { place < length one.now }
    requires other { place < length other.now }
    ensures { result ≡ eq_ignore_ascii_case (get_or one.now (length one.now - 1 - place) 0)
        (get_or other.now (length other.now - 1 - place) 0) }
{
    one[one.len() - 1 - place].eq_ignore_ascii_case(&other[other.len() - 1 - place])
}

/// The number of octets that two texts have in common at the end, without regard to the case of letters.
#[tactic(auto, using(crate::proofs::Fronts::whole_end, crate::proofs::Fronts::stops_at, crate::proofs::Fronts::goes_on))]
fn common_end(one: &[u8], other: &[u8]) -> usize
    ensures { result ≡ common_end one.now other.now }
{
    let least = one.len().min(other.len());
    for place in 0..least {
        if !are_like(one, other, place) {
            return place;
        }
    }
    least
}

/// Whether both lists have the same two octets, in the other order.
fn are_swapped(one: &[u8], other: &[u8]) -> bool
    ensures { result ≡ are_swapped one.now other.now }
{
    match (one, other) {
        ([a, b], [c, d]) => a == d && b == c,
        _ => false,
    }
}

/// A text without its last octets.
fn without_end(count: usize, text: &[u8]) -> &[u8]
    ensures { result.now ≡ without_end count text.now }
{
    &text[..text.len().saturating_sub(count)]
}

/// Whether one octet is wrong, missing or too many, or two octets are swapped.
fn is_slip(one: &[u8], other: &[u8]) -> bool
    ensures { result ≡ is_slip one.now other.now }
{
    (one.len() < 2 && other.len() < 2) || are_swapped(one, other)
}

/// Whether what differs in names of these lengths is the case of letters, or in longer names a slip.
fn is_slip_in(len: usize, other_len: usize, one: &[u8], other: &[u8]) -> bool
    ensures { result ≡ is_slip_in len other_len one.now other.now }
{
    if one.is_empty() && other.is_empty() {
        return true;
    }
    if len < 3 || other_len < 3 {
        return false;
    }
    is_slip(one, other)
}

/// The same of what is left without what the texts have in common at their end.
fn is_slip_before_end(len: usize, other_len: usize, one: &[u8], other: &[u8]) -> bool
    ensures { result ≡ is_slip_before_end len other_len one.now other.now }
{
    let end = common_end(one, other);
    is_slip_in(
        len,
        other_len,
        without_end(end, one),
        without_end(end, other),
    )
}

/// Whether one name may have been meant for the other. They aren't the same. They differ only in the case of letters,
/// in one octet that is wrong, missing or too many, or in two octets that are swapped. Short names differ only in their
/// case.
pub fn is_near(one: &[u8], other: &[u8]) -> bool
    ensures near { result ≡ are_near one.now other.now }
    ensures same { one.now ≡ other.now → result ≡ false }
{
    if one == other {
        return false;
    }
    let front = common_front(one, other);
    is_slip_before_end(one.len(), other.len(), &one[front..], &other[front..])
}
