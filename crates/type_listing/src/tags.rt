//! The tags of a type.

ghost use Rattle.std.specs.Prelude.{◌≡◌, ◌++◌, OnOk, codes, decimal, string_bytes};
ghost use Rattle.type_listing.specs.Listing.{class_words as class_words', tag_words, tags_line};

use asn_base::tag::{Class, Tag};
use std::alloc::AllocError;

/// What comes before the number of a tag in the notation of modules (X.680, clause 31.2).
fn class_words(class: Class) -> &'static str
    ensures { result.now ≡ class_words' class }
{
    match class {
        Class::Universal => "UNIVERSAL ",
        Class::Application => "APPLICATION ",
        Class::Context => "",
        Class::Private => "PRIVATE ",
    }
}

/// Appends tags in the notation of modules, each after a space.
fn push_all(out: &mut String, tags: &[Tag]) -> Result<(), AllocError>
    ensures { OnOk result (string_bytes out.new ≡ string_bytes out.old ++ tag_words tags.now) }
{
    for i in 0..tags.len() {
        let class = class_words(tags[i].class);
        let number = tags[i].number;
        write!(out, " [{class}{number}]")?;
    }
    Ok(())
}

/// Appends the line of a type's tags, the outermost first. An untagged CHOICE has none.
pub(crate) fn push_tags(out: &mut String, tags: &[Tag]) -> Result<(), AllocError>
    ensures { OnOk result (string_bytes out.new ≡ string_bytes out.old ++ tags_line tags.now) }
{
    if tags.is_empty() {
        return out.push_str("  tags none\n");
    }
    out.push_str("  tags")?;
    push_all(out, tags)?;
    out.push_str("\n")
}
