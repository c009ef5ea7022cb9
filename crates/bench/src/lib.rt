//! Measures how long parts of the compiler take. The program `rows` calls it. Of its words the first names what is
//! measured:
//!
//! - `texts FILE ..`: finding the tokens of texts.
//! - `bounds FILE .. -- TYPE VALUE ..`: opening modules, finding what their constraints allow, and typing and printing
//!   values.
//! - `codec FILE .. -- TYPE VALUE ..`: encoding values by the distinguished rules, and decoding the encodings.
//! - `packed FILE .. -- TYPE VALUE ..`: the same in canonical PER.
//! - `hostile FILE .. -- TYPE @MESSAGE ..`: decoding messages by the basic rules.
//! - `all FILE .. -- TYPE VALUE ..`: all of these.
//!
//! The files are texts of modules. A type is named as `Module.Type`, and a value as `Module.value`. `@MESSAGE` names
//! the file of a message. It may be in the place of a value: the value is then the one that the message encodes.
//!
//! Counts are written to standard output, and times to standard error.
#![tactic(auto)]

mod calls;
mod codec;
mod lines;
mod modules;
mod typing;

use crate::calls::{Call, measure};
use crate::codec::{measure_codec, measure_packed};
use crate::lines::{Work, print_count, refused};
use crate::modules::{Kit, Target, measure_bounds, opened};
use crate::typing::{measure_printing, value_of};
use std::{fs, io};

/// The words that `run` takes.
const USAGE: &str = "expected: texts FILE ..
          bounds|codec|packed|all FILE .. -- TYPE VALUE ..
          hostile FILE .. -- TYPE @MESSAGE ..";

/// What is measured.
#[derive(Clone, Copy)]
struct Part {
    texts: bool,
    modules: bool,
    bounds: bool,
    codec: bool,
    packed: bool,
}

const TEXTS: Part = Part {
    texts: true,
    modules: false,
    bounds: false,
    codec: false,
    packed: false,
};

const MODULES: Part = Part {
    texts: false,
    modules: true,
    bounds: false,
    codec: false,
    packed: false,
};

const ALL: Part = Part {
    texts: true,
    modules: true,
    bounds: true,
    codec: true,
    packed: true,
};

/// The part with a name.
fn part_named(name: &str) -> Option<Part> {
    match name {
        "texts" => Some(TEXTS),
        "bounds" => Some(Part {
            bounds: true,
            ..MODULES
        }),
        "codec" => Some(Part {
            codec: true,
            ..MODULES
        }),
        "packed" => Some(Part {
            packed: true,
            ..MODULES
        }),
        "hostile" => Some(MODULES),
        "all" => Some(ALL),
        _ => None,
    }
}

/// What comes after the first word: the texts of the files before the word `--`, and the names of types and values
/// after it.
#[derive(Drop)]
struct Words {
    texts: Vec<Vec<u8>>,
    /// How many octets the texts have.
    octets: usize,
    names: Vec<String>,
}

/// Measures the text of a file, and prints how many octets and tokens it has.
fn measure_text(rt: &HostRuntime, name: &str, text: &[u8]) -> io::Result<()> {
    let Ok(tokens) = text::lex(rt.alloc(), text) else {
        return refused(rt, name, "no tokens");
    };
    print_count(rt, name, text.len(), "octets")?;
    print_count(rt, name, tokens.len(), "tokens")?;
    let work = Work {
        times: 1,
        octets: text.len(),
    };
    measure(rt, name, Call::Lex(text), work)
}

/// The texts and names that words give. The texts are measured if the part has them.
fn arguments(rt: &HostRuntime, part: Part, words: &[String]) -> io::Result<Words> {
    let mut texts = Vec::new(rt.alloc());
    let mut octets = 0usize;
    let mut names = Vec::new(rt.alloc());
    let mut seen_dashes = false;
    for word in words {
        if seen_dashes {
            names.push(String::from_str(rt.alloc(), word.as_str())?)?;
        } else if word.as_str() == "--" {
            seen_dashes = true;
        } else {
            let text = fs::read(rt, word.as_str())?;
            if part.texts {
                measure_text(rt, word.as_str(), text.as_slice())?;
            }
            octets = octets.wrapping_add(text.len());
            texts.push(text)?;
        }
    }
    Ok(Words {
        texts,
        octets,
        names,
    })
}

/// Measures a value of a type, both given by their names.
fn measure_value(rt: &HostRuntime, kit: &Kit, part: Part, ty: &str, name: &str) -> io::Result<()> {
    let Some(id) = kit.type_named(ty) else {
        return refused(rt, ty, "no type");
    };
    let target = Target { kit, id };
    let value = value_of(rt, target, name)?;
    if part.bounds {
        measure_printing(rt, target, name, &value)?;
    }
    if part.codec {
        measure_codec(rt, target, name, &value)?;
    }
    if part.packed {
        measure_packed(rt, target, name, &value)?;
    }
    Ok(())
}

/// Measures modules and their values.
fn measure_modules(rt: &HostRuntime, part: Part, words: &Words) -> io::Result<()> {
    let kit = opened(rt, words.texts.as_slice())?;
    if part.bounds {
        measure_bounds(rt, &kit, words.octets)?;
    }
    for pair in words.names.as_slice().chunks_exact(2) {
        measure_value(rt, &kit, part, pair[0].as_str(), pair[1].as_str())?;
    }
    Ok(())
}

/// Measures what the words name: the first is a part, the others are its files, types and values. Counts are written to
/// standard output, and times to standard error. A word that means nothing is printed, and the result is the error
/// `InvalidInput`. Otherwise an error comes from files, from memory or from an output.
pub fn run(rt: &HostRuntime, words: &[String]) -> io::Result<()> {
    let Some((name, others)) = words.split_first() else {
        return refused(rt, "no word", USAGE);
    };
    let Some(part) = part_named(name.as_str()) else {
        return refused(rt, name.as_str(), USAGE);
    };
    let words = arguments(rt, part, others)?;
    if part.modules {
        measure_modules(rt, part, &words)?;
    }
    Ok(())
}
