//! What a job has of its files, and what it prints.

ghost use Rattle.std.specs.Prelude.{◌≡◌};
ghost use Rattle.check_jobs.specs.Inputs.{contents, given_in, octets_given};
ghost use Rattle.judging.specs.named_values.Given.{as_given};

use command_line::{Given, Job, ValueWords};
use judging::ValueGiven;

/// The contents of the files that a job names.
#[derive(Debug)]
pub struct Inputs {
    /// The texts of the job's modules, in order; those of the older modules if versions are compared.
    pub files: Vec<Vec<u8>>,
    /// The texts of the newer modules, in order.
    pub newer: Vec<Vec<u8>>,
    /// The file after `--hex @`, if the job names one.
    pub octets: Option<Vec<u8>>,
    /// The file after `--account`, if the job names one.
    pub account: Option<Vec<u8>>,
}

/// The octets of a file. Without a file there are none.
fn contents_of(file: &Option<Vec<u8>>) -> &[u8]
    ensures { result.now ≡ contents file.now }
{
    match file {
        Some(octets) => octets.as_slice(),
        None => &[],
    }
}

impl Inputs {
    /// The octets that a job gives: those of its words, or those of the file that its words name. Without either there
    /// are none; those of lines are not among a job's inputs.
    pub fn octets_of<'a>(&'a self, job: &'a Job) -> &'a [u8]
        ensures { result.now ≡ octets_given job.now.octets self.now.octets }
    {
        match &job.octets {
            Given::Nothing | Given::Lines => &[],
            Given::Octets(octets) => octets.as_slice(),
            Given::Path(_) => contents_of(&self.octets),
        }
    }

    /// The octets of the account. Without a file there are none.
    pub fn account(&self) -> &[u8]
        ensures { result.now ≡ contents self.now.account }
    {
        contents_of(&self.account)
    }
}

/// The value that a job gives: by its name, or by the text of a notation. Without either it has the empty name.
pub fn value_of(job: &Job) -> ValueGiven<'_>
    ensures { as_given result ≡ given_in job.now.value }
{
    match &job.value {
        ValueWords::Nothing | ValueWords::Lines => ValueGiven::Named(""),
        ValueWords::Named(name) => ValueGiven::Named(name.as_str()),
        ValueWords::Written(text) => ValueGiven::Written(text.as_bytes()),
    }
}

/// What a job prints.
#[derive(Debug)]
pub struct Output {
    /// The octets for standard output.
    pub octets: Vec<u8>,
    /// False if they are a `no`, or if they end with a refusal.
    pub yes: bool,
}

impl Drop for Inputs {
    fn drop(self) {
        let Inputs {
            files: _,
            newer: _,
            octets: _,
            account: _,
        } = self;
    }
}

impl Drop for Output {
    fn drop(self) {
        let Output { octets: _, yes: _ } = self;
    }
}
