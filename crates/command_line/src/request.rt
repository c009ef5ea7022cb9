//! What a command line asks for.

ghost use Rattle.std.specs.Prelude.{◌≡◌, map, string_bytes};
ghost use Rattle.command_line.specs.Commands.{bare_face, face, face_of};
ghost use Rattle.command_line.specs.declared.request.Verb.TheVariants.{Later};

use std::alloc::Global;

/// The octets that a command line gives.
pub enum Given {
    /// No octets.
    Nothing,
    /// These octets, written in hexadecimal.
    Octets(Vec<u8>),
    /// The octets of the file with this name.
    Path(String),
    /// Those of each line of standard input, one line after the other, written in hexadecimal.
    Lines,
}

/// The value that a command line gives.
pub enum ValueWords {
    /// No value.
    Nothing,
    /// The value of this name, as `Module.value`.
    Named(String),
    /// The value of this notation, whose names are read in the module of the type.
    Written(String),
    /// The value of each line of standard input, one line after the other, each line a notation.
    Lines,
}

/// What a program should do.
#[derive(Clone, Copy, PartialEq, Eq)]
pub enum Verb {
    /// Writes a value by the distinguished encoding rules.
    Der,
    /// Reads octets as a value, by the basic or by the distinguished encoding rules.
    Ber,
    /// Writes a value by the canonical packed encoding rules, unaligned.
    Uper,
    /// Reads octets as a value by the canonical packed encoding rules, unaligned.
    Unper,
    /// Writes how the distinguished encoding of a value is made up, header by header.
    Account,
    /// Lists the types, with what is known of each.
    List,
    /// Says whether a type of newer modules is a later version of that of older ones.
    Later,
    /// Reads octets by the basic encoding rules, and shows them header by header.
    Show,
    /// Judges octets by an account of them.
    Check,
}

/// The texts of modules that a command line names.
#[derive(Drop)]
pub struct ModuleTexts {
    /// The names of the files, in order.
    pub files: Vec<String>,
    /// Whether a fault in a text is shown with the line in which it is.
    pub context: bool,
}

/// A command, with exactly what it takes of a command line.
///
/// In each `ty` is the name of a type, as `Module.Type`, and `texts` are those of the modules that have it.
#[derive(Drop)]
pub enum Command {
    /// Writes a value by the distinguished encoding rules.
    Der {
        ty: String,
        value: ValueWords,
        /// Whether the octets are written as they are, instead of in hexadecimal.
        raw: bool,
        texts: ModuleTexts,
    },
    /// Reads octets as a value, by the basic or by the distinguished encoding rules.
    Ber {
        ty: String,
        octets: Given,
        /// Whether only encodings by the distinguished rules are read.
        strict: bool,
        texts: ModuleTexts,
    },
    /// Writes a value by the canonical packed encoding rules, unaligned.
    Uper {
        ty: String,
        value: ValueWords,
        /// Whether the octets are written as they are, instead of in hexadecimal.
        raw: bool,
        texts: ModuleTexts,
    },
    /// Reads octets as a value by the canonical packed encoding rules, unaligned.
    Unper {
        ty: String,
        octets: Given,
        texts: ModuleTexts,
    },
    /// Writes how the distinguished encoding of a value is made up, header by header.
    Account {
        ty: String,
        value: ValueWords,
        texts: ModuleTexts,
    },
    /// Lists the types, with what is known of each.
    List {
        texts: ModuleTexts,
    },
    /// Says whether a type of newer modules is a later version of that of the texts.
    Later {
        ty: String,
        /// The names of the files with the newer modules' texts, in order.
        newer: Vec<String>,
        texts: ModuleTexts,
    },
    /// Reads octets by the basic encoding rules, and shows them header by header.
    Show {
        ty: String,
        octets: Given,
        texts: ModuleTexts,
    },
    /// Judges octets by an account of them: what `octcheck` does.
    Check {
        ty: String,
        value: ValueWords,
        octets: Given,
        /// The name of the file with the account.
        account: String,
        texts: ModuleTexts,
    },
}

/// The request of a command line. Fields that its verb doesn't take are empty, `Nothing` or false.
pub struct Job {
    pub verb: Verb,
    /// The name of a type, as `Module.Type`.
    pub ty: String,
    pub value: ValueWords,
    /// The name of the file with an account of an encoding.
    pub account: String,
    pub octets: Given,
    /// Whether octets are written as they are, instead of in hexadecimal.
    pub raw: bool,
    /// Whether only encodings by the distinguished rules are read.
    pub strict: bool,
    /// Whether a fault in a text is shown with the line in which it is.
    pub context: bool,
    /// The names of the files with the modules' texts, in order; those of the older modules if versions are compared.
    pub files: Vec<String>,
    /// The names of the files with the newer modules' texts, in order.
    pub newer: Vec<String>,
}

/// The job of a verb that takes texts alone: all other fields are empty, `Nothing` or false.
fn bare(alloc: Global, verb: Verb, texts: ModuleTexts) -> Job
    ensures { face result ≡ bare_face verb texts }
{
    Job {
        verb,
        ty: String::new(alloc),
        value: ValueWords::Nothing,
        account: String::new(alloc),
        octets: Given::Nothing,
        raw: false,
        strict: false,
        context: texts.context,
        files: texts.files,
        newer: Vec::new(alloc),
    }
}

/// The job of a verb that takes a type, a value and texts.
fn valued(alloc: Global, verb: Verb, ty: String, value: ValueWords, texts: ModuleTexts) -> Job
    ensures { face result ≡ record (bare_face verb texts) { type_name = string_bytes ty; value = value } }
{
    let mut job = bare(alloc, verb, texts);
    job.ty = ty;
    job.value = value;
    job
}

/// The job of a verb that takes a type, octets and texts.
fn reading(alloc: Global, verb: Verb, ty: String, octets: Given, texts: ModuleTexts) -> Job
    ensures { face result ≡ record (bare_face verb texts) { type_name = string_bytes ty; octets = octets } }
{
    let mut job = bare(alloc, verb, texts);
    job.ty = ty;
    job.octets = octets;
    job
}

/// The job that compares a type with that of newer modules.
fn later(alloc: Global, ty: String, newer: Vec<String>, texts: ModuleTexts) -> Job
    ensures { face result
        ≡ record (bare_face Later texts) { type_name = string_bytes ty; newer = map string_bytes newer.items } }
{
    let mut job = bare(alloc, Verb::Later, texts);
    job.ty = ty;
    job.newer = newer;
    job
}

impl Job {
    /// The same job, but whether octets are written as they are.
    fn with_raw(mut self, raw: bool) -> Job
        ensures { face result ≡ record (face self) { raw = raw } }
    {
        self.raw = raw;
        self
    }

    /// The same job, but whether only encodings by the distinguished rules are read.
    fn with_strict(mut self, strict: bool) -> Job
        ensures { face result ≡ record (face self) { strict = strict } }
    {
        self.strict = strict;
        self
    }
}

impl Command {
    /// Returns the job of the command: the verb that is named as it, and what it takes. Fields of what it doesn't take
    /// are empty, `Nothing` or false. It takes no memory.
    pub fn into_job(self, alloc: Global) -> Job
        ensures { face result ≡ face_of self }
    {
        match self {
            Command::Der {
                ty,
                value,
                raw,
                texts,
            } => valued(alloc, Verb::Der, ty, value, texts).with_raw(raw),
            Command::Ber {
                ty,
                octets,
                strict,
                texts,
            } => reading(alloc, Verb::Ber, ty, octets, texts).with_strict(strict),
            Command::Uper {
                ty,
                value,
                raw,
                texts,
            } => valued(alloc, Verb::Uper, ty, value, texts).with_raw(raw),
            Command::Unper { ty, octets, texts } => reading(alloc, Verb::Unper, ty, octets, texts),
            Command::Account { ty, value, texts } => valued(alloc, Verb::Account, ty, value, texts),
            Command::List { texts } => bare(alloc, Verb::List, texts),
            Command::Later { ty, newer, texts } => later(alloc, ty, newer, texts),
            Command::Show { ty, octets, texts } => reading(alloc, Verb::Show, ty, octets, texts),
            Command::Check {
                ty,
                value,
                octets,
                account,
                texts,
            } => {
                let mut job = valued(alloc, Verb::Check, ty, value, texts);
                job.octets = octets;
                job.account = account;
                job
            }
        }
    }
}

impl Drop for Given {
    fn drop(self) {
        match self {
            Given::Nothing => {}
            Given::Octets(_) => {}
            Given::Path(_) => {}
            Given::Lines => {}
        }
    }
}

impl Drop for ValueWords {
    fn drop(self) {
        match self {
            ValueWords::Nothing => {}
            ValueWords::Named(_) => {}
            ValueWords::Written(_) => {}
            ValueWords::Lines => {}
        }
    }
}

impl Drop for Job {
    fn drop(self) {
        let Job {
            verb: _,
            ty: _,
            value: _,
            account: _,
            octets: _,
            raw: _,
            strict: _,
            context: _,
            files: _,
            newer: _,
        } = self;
    }
}
