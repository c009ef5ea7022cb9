//! The names of rows.

ghost use Rattle.std.specs.Prelude.{◌≡◌, MatchOption};
ghost use Rattle.account_text.specs.proving.Tokens.{kind_name};

/// The kinds of rows.
#[derive(Clone, Copy, Debug, PartialEq, Eq)]
pub(crate) enum Kind {
    Leaf,
    Wrap,
    Seq,
    SeqOf,
    Set,
    SetOf,
    Absent,
    Default,
}

impl Kind {
    /// The kind's name in the text.
    pub(crate) fn name(self) -> &'static str
        ensures { result.now ≡ kind_name self }
    {
        match self {
            Kind::Leaf => "leaf",
            Kind::Wrap => "wrap",
            Kind::Seq => "seq",
            Kind::SeqOf => "seqof",
            Kind::Set => "set",
            Kind::SetOf => "setof",
            Kind::Absent => "absent",
            Kind::Default => "default",
        }
    }
}

/// The kind with this name, or None if there is none.
pub(crate) fn kind_named(name: &str) -> Option<Kind>
    ensures { MatchOption result ((k : Kind) → name.now ≡ kind_name k → ⊥) (λ k. name.now ≡ kind_name k) }
{
    match name {
        "leaf" => Some(Kind::Leaf),
        "wrap" => Some(Kind::Wrap),
        "seq" => Some(Kind::Seq),
        "seqof" => Some(Kind::SeqOf),
        "set" => Some(Kind::Set),
        "setof" => Some(Kind::SetOf),
        "absent" => Some(Kind::Absent),
        "default" => Some(Kind::Default),
        _ => None,
    }
}
