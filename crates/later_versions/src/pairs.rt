//! Pairs of types, one of an earlier schema and one of a later schema, and the places of members that lead to them.
//! Each pair is compared once.

ghost use Rattle.std.specs.Prelude.{◌≡◌, ◌⊎◌, ◌<◌, ℕ, true, false, IfOk, List, OnOk, Some, length, reverse};
ghost use Rattle.std.specs.Prelude.{slice_get};
ghost use Rattle.later_versions.specs.proving.Pairs.{AreBack, AreKnown, ArePaths, HasMet, IsIn, IsNotedOnce, codes_in, pair_of};

use asn_base::schema::TypeId;
use ranges::Codes;
use std::alloc::{AllocError, Global};
use std::collections::BTreeMap;

/// How many types of the later schema share an entry of the set of pairs.
const WIDTH: usize = 128;

/// A type of the earlier schema and one of the later schema.
#[derive(Clone, Copy)]
pub(crate) struct Pair {
    pub first: TypeId,
    pub second: TypeId,
}

/// A pair that was met, and how: the number in the list of the pair whose types have it as members, and their place. Of
/// the first pair neither has a meaning.
#[derive(Clone, Copy)]
pub(crate) struct Met {
    pub pair: Pair,
    pub from: usize,
    pub place: usize,
}

/// Pairs in the order in which they were met, and the set of their numbers. An entry of the set has a bit for each of
/// 128 types of the later schema. Its key is the number of the first type, and that of the second one divided by 128.
#[derive(Drop)]
pub(crate) struct Pairs {
    pub list: Vec<Met>,
    pub known: BTreeMap<(usize, usize), Codes>,
}

/// The numbers below 128 of an entry of the set.
fn codes_at(known: &BTreeMap<(usize, usize), Codes>, key: (usize, usize)) -> Codes
    ensures { result ≡ codes_in known.now key }
{
    match known.get(&key) {
        Some(codes) => codes.copy(),
        None => Codes::none(),
    }
}

/// Adds a pair to the set. The result is false if the set has the pair.
fn add(known: &mut BTreeMap<(usize, usize), Codes>, pair: Pair) -> Result<bool, AllocError>
    ensures had { IfOk result (λ b. b ≡ false → IsIn known.old (pair_of pair)) }
    ensures same { IfOk result (λ b. b ≡ false → known.new ≡ known.old) }
    ensures added { IfOk result (λ b. b ≡ true → (q : ℕ × ℕ) →
        IsIn known.new q → IsIn known.old q ⊎ (pair_of pair ≡ q)) }
{
    let key = (pair.first.index, pair.second.index / WIDTH);
    let code = (pair.second.index % WIDTH) as u32;
    let mut codes = codes_at(known, key);
    if codes.has(code) {
        return Ok(false);
    }
    codes.add(code, code);
    match known.insert(key, codes) {
        Ok(_) => Ok(true),
        Err(_) => Err(AllocError),
    }
}

/// Appends a pair to the others, if it isn't among them.
pub(crate) fn note(pairs: &mut Pairs, met: Met) -> Result<(), AllocError>
    requires { AreKnown pairs.old }
    ensures known { OnOk result (AreKnown pairs.new) }
    ensures is_met { OnOk result (HasMet pairs.new (pair_of met.pair)) }
    ensures noted { OnOk result (IsNotedOnce pairs.old pairs.new met) }
{
    match add(&mut pairs.known, met.pair) {
        Ok(true) => {
            pairs.list.push(met)?;
            Ok(())
        }
        Ok(false) => Ok(()),
        Err(fault) => Err(fault),
    }
}

/// The places, the last one first.
fn reversed(alloc: Global, places: &[usize]) -> Result<Vec<usize>, AllocError>
    ensures { IfOk result (λ v. v.items ≡ reverse places.now) }
{
    places.iter().rev().copied().collect(alloc)
}

/// The places of members that lead to a pair from the first pair.
pub(crate) fn places_to(alloc: Global, list: &[Met], at: usize) -> Result<Vec<usize>, AllocError>
    requires within { at < length list.now }
    requires back { AreBack list.now }
    ensures { IfOk result (λ v. (paths : List (List ℕ)) → ArePaths list.now paths → slice_get paths at ≡ Some v.items) }
{
    let mut places = Vec::new(alloc);
    let mut now = at;
    while now > 0 {
        let met = list[now];
        places.push(met.place)?;
        now = met.from;
    }
    reversed(alloc, places.as_slice())
}
