//! Makes the signposts at the values of long ways.

ghost use Rattle.std.specs.Prelude.{◌≡◌, ◌<◌, ℕ, IfOk, IfSome, List, MatchOption, None, OnOk, Option, Some, length};
ghost use Rattle.trees.specs.Values.{Name, reference, tree_of};
ghost use Rattle.resolve.specs.Program.{Program};
ghost use Rattle.range_ends.specs.proving.Steps.{AreReferred, listed};
ghost use Rattle.range_ends.specs.proving.Keys.{texts};
ghost use Rattle.range_ends.specs.proving.Trees.{KeepLeaves};
ghost use Rattle.range_ends.specs.proving.Signs.{AreSigned, IsOneOf};
ghost use Rattle.range_ends.specs.proving.Posting.{IsLabel, IsLast, IsMade, IsNext, IsRerouted};

use crate::forks::{Forks, changed_tree, even_tree};
use crate::keys::{bits_in, key_of};
use crate::program::notation_at;
use crate::signposts::{Signpost, Signposts, numbers_of, post_at};
use resolve::Linked;
use std::alloc::{AllocError, Global};
use trees::{NamedNumber, ValueForm, ValueSyntax};

/// A way with more references than this is long.
const FEW_STEPS: usize = 16;

/// Signposts are made if ends are asked for in constraints on more types than this.
const FEW_TYPES: usize = 8;

/// No signpost has as many references after it.
const MOST_STEPS: usize = 18_446_744_073_709_551_615;

/// Whether more than a few references follow one another from a value on.
fn is_long(target: &[Option<usize>], start: usize) -> bool {
    let mut at = start;
    for step in 0..FEW_STEPS {
        match target.get(at) {
            None => return false,
            Some(None) => return false,
            Some(Some(next)) => at = *next,
        }
    }
    true
}

/// Adds the values of a way that weren't passed before.
fn pass(
    target: &[Option<usize>],
    passed: &mut Vec<bool>,
    way: &mut Vec<usize>,
    start: usize,
) -> Result<(), AllocError> {
    let mut at = start;
    for step in 0..target.len() {
        if at >= target.len() || at >= passed.len() || passed[at] {
            return Ok(());
        }
        passed[at] = true;
        way.push(at)?;
        match target[at] {
            None => return Ok(()),
            Some(next) => at = next,
        }
    }
    Ok(())
}

/// The values of long ways, each after the one that it refers to.
fn long_ways(alloc: Global, target: &[Option<usize>]) -> Result<Vec<usize>, AllocError> {
    let mut passed = vec![in alloc; false; target.len()]?;
    let mut all = Vec::new(alloc);
    let mut way = Vec::new(alloc);
    for start in 0..target.len() {
        if is_long(target, start) {
            pass(target, &mut passed, &mut way, start)?;
            way.reverse();
            all.extend_from_slice(&way)?;
            way.clear();
        }
    }
    Ok(all)
}

/// The name that a notation is, if it is one with no module's name before it.
fn bare_name(notation: &ValueSyntax) -> Option<&str>
    ensures { MatchOption result ((x : Name) → tree_of notation.now ≡ reference None x → ⊥)
        (λ x. tree_of notation.now ≡ reference None x.now) }
{
    match &notation.form {
        ValueForm::Reference(reference) => match reference.module() {
            None => Some(reference.name()),
            Some(_) => None,
        },
        _ => None,
    }
}

/// The number of the name that a value's notation is.
fn label(linked: &Linked, signs: &Signposts<'_>, value: usize) -> Option<usize>
    requires { value < length linked.now.program.values }
    ensures { IsLabel linked.now.program (texts signs.now.names.items) value result }
{
    let (_, notation) = notation_at(linked, value);
    match bare_name(notation) {
        None => None,
        Some(name) => key_of(&signs.names, name),
    }
}

/// A signpost, if more references can be counted before it.
fn with_room(post: Option<Signpost>) -> Option<Signpost>
    ensures same { IfSome result (λ r. post ≡ Some r) }
    ensures few { IfSome result (λ r. r.rest < 18446744073709551615) }
{
    match post {
        None => None,
        Some(post) => {
            if post.rest < MOST_STEPS {
                Some(post)
            } else {
                None
            }
        }
    }
}

/// The signpost at the value that a value refers to.
fn post_after(signs: &Signposts<'_>, target: &[Option<usize>], value: usize) -> Option<Signpost>
    ensures there { IfSome result (λ post. IsOneOf signs.now post) }
    ensures refers { IfSome result (λ post. listed target.now value ≡ Some post.value) }
    ensures few { IfSome result (λ post. post.rest < 18446744073709551615) }
{
    if value >= target.len() {
        return None;
    }
    match target[value] {
        None => None,
        Some(next) => with_room(post_at(signs, next)),
    }
}

/// A signpost at the last value of a way.
fn last_post(forks: &mut Forks, place: usize, value: usize) -> Result<Signpost, AllocError>
    ensures kept { OnOk result (KeepLeaves forks.old forks.new) }
    ensures last { IfOk result (IsLast forks.new place value) }
{
    let root = even_tree(forks, place)?;
    Ok(Signpost {
        value,
        root,
        rest: 0,
    })
}

/// The tree of a signpost: that of the next one, with its own place for the number of its value's name.
fn next_root(
    forks: &mut Forks,
    place: usize,
    label: Option<usize>,
    root: usize,
) -> Result<usize, AllocError>
    ensures kept { OnOk result (KeepLeaves forks.old forks.new) }
    ensures rerouted { IfOk result (IsRerouted forks.old forks.new place label root) }
{
    match label {
        None => Ok(root),
        Some(key) => changed_tree(forks, root, key, place),
    }
}

/// A signpost at a value which refers to one that has a signpost.
fn next_post(
    forks: &mut Forks,
    place: usize,
    value: usize,
    label: Option<usize>,
    after: &Signpost,
) -> Result<Signpost, AllocError>
    requires { after.now.rest < 18446744073709551615 }
    ensures kept { OnOk result (KeepLeaves forks.old forks.new) }
    ensures next { IfOk result (IsNext forks.old forks.new place value label after.now) }
{
    let root = next_root(forks, place, label, after.root)?;
    Ok(Signpost {
        value,
        root,
        rest: after.rest + 1,
    })
}

/// A signpost at a value, before the one at the value that it refers to, if there is one.
fn new_post(
    forks: &mut Forks,
    place: usize,
    value: usize,
    label: Option<usize>,
    after: Option<Signpost>,
) -> Result<Signpost, AllocError>
    requires { IfSome after (λ a. a.rest < 18446744073709551615) }
    ensures kept { OnOk result (KeepLeaves forks.old forks.new) }
    ensures made { IfOk result (IsMade forks.old forks.new place value label after) }
{
    match after {
        None => last_post(forks, place, value),
        Some(next) => next_post(forks, place, value, label, &next),
    }
}

/// Notes the place of a value's signpost.
fn set_place(places: &mut Vec<usize>, value: usize, place: usize) {
    if value < places.len() {
        places[value] = place;
    }
}

/// Adds a signpost at a value.
fn add_post(
    signs: &mut Signposts<'_>,
    linked: &Linked,
    target: &[Option<usize>],
    value: usize,
) -> Result<(), AllocError>
    requires inside { value < length linked.now.program.values }
    requires signed { AreSigned linked.now.program target.now signs.old }
    ensures { OnOk result (AreSigned linked.now.program target.now signs.new) }
{
    let place = signs.posts.len();
    let after = post_after(signs, target, value);
    let key = label(linked, signs, value);
    let post = new_post(&mut signs.forks, place, value, key, after)?;
    signs.posts.push(post)?;
    set_place(&mut signs.places, value, place);
    Ok(())
}

/// Adds signposts at values, each after the one that it refers to.
fn add_posts(
    signs: &mut Signposts<'_>,
    linked: &Linked,
    target: &[Option<usize>],
    values: &[usize],
) -> Result<(), AllocError>
    requires referred { AreReferred linked.now.program target.now }
    requires signed { AreSigned linked.now.program target.now signs.old }
    ensures { OnOk result (AreSigned linked.now.program target.now signs.new) }
{
    for step in 0..values.len() {
        let value = values[step];
        if value < target.len() {
            match add_post(signs, linked, target, value) {
                Ok(()) => {}
                Err(fault) => return Err(fault),
            }
        }
    }
    Ok(())
}

/// The named numbers of a type, by its number.
fn numbers_at(linked: &Linked, ty: usize) -> &[NamedNumber] {
    match linked.types().get(ty) {
        None => &[],
        Some(written) => numbers_of(&written.shape),
    }
}

/// Adds the names of numbers.
fn add_names<'a>(numbers: &'a [NamedNumber], names: &mut Vec<&'a str>) -> Result<(), AllocError> {
    for number in numbers {
        names.push(number.name.it.as_str())?;
    }
    Ok(())
}

/// The names of the numbers of types, in order.
fn names_in<'a>(
    alloc: Global,
    linked: &'a Linked,
    cores: &[usize],
) -> Result<Vec<&'a str>, AllocError> {
    let mut names = Vec::new(alloc);
    for core in cores {
        add_names(numbers_at(linked, *core), &mut names)?;
    }
    names.sort()?;
    Ok(names)
}

/// The values at which signposts are made for ends in constraints on these types.
fn signed_values(
    alloc: Global,
    target: &[Option<usize>],
    cores: &[usize],
) -> Result<Vec<usize>, AllocError> {
    if cores.len() <= FEW_TYPES {
        Ok(Vec::new(alloc))
    } else {
        long_ways(alloc, target)
    }
}

/// No signposts yet, for names in order and the values that have a place.
fn no_signposts<'a>(alloc: Global, names: Vec<&'a str>, places: Vec<usize>) -> Signposts<'a>
    ensures { (p : Program) (os : List (Option ℕ)) → AreSigned p os result }
{
    let levels = bits_in(names.len());
    let posts = Vec::new(alloc);
    Signposts {
        names,
        forks: Forks {
            levels,
            all: Vec::new(alloc),
        },
        posts,
        places,
    }
}

/// Makes the signposts for ends in constraints on these types, where that saves time. The time and the memory grow as
/// n log n for n values and names.
pub(crate) fn signposts<'a>(
    alloc: Global,
    linked: &'a Linked,
    target: &[Option<usize>],
    cores: &[usize],
) -> Result<Signposts<'a>, AllocError>
    requires { AreReferred linked.now.program target.now }
    ensures { IfOk result (AreSigned linked.now.program target.now) }
{
    let values = signed_values(alloc, target, cores)?;
    if values.is_empty() {
        return Ok(no_signposts(alloc, Vec::new(alloc), Vec::new(alloc)));
    }
    let names = names_in(alloc, linked, cores)?;
    let places = vec![in alloc; 0; target.len()]?;
    let mut signs = no_signposts(alloc, names, places);
    add_posts(&mut signs, linked, target, &values)?;
    Ok(signs)
}
