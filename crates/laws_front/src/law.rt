//! The headline of the front end. A caller calls the law to know it; it takes no memory and no time.

ghost use Rattle.std.specs.Prelude.{List, ℕ};
ghost use Rattle.laws_front.specs.Headline.{IsFrontEnd};

use named_values::front_end::law::{
    lemma_accepted_checked, lemma_faults_exclude, lemma_modules_linked, lemma_values_of_schema,
    one_layer, one_list, one_place, one_program,
};
use named_values::law::{one_meaning, one_name};

/// What the front end promises of any texts. What [`front_end::open`] returns is decided by definitions alone: it
/// succeeds if and only if each layer accepts the texts, unless an allocation fails. The program is the only one of the
/// texts, and its schema too. A refusal is true, is that of the first layer that refuses, and excludes acceptance. In
/// accepted texts each name of a type has its one type, and each value assignment stands for exactly one value of its
/// type. [`front_end::Modules::typed`] and [`named_values::meant`] return the value that a notation stands for. What
/// [`value_text::print`] prints of a value is read back as the value.
pub fn headline()
    ensures { (texts : List (List ℕ)) → IsFrontEnd texts }
{
    lemma_accepted_checked();
    lemma_faults_exclude();
    lemma_modules_linked();
    one_layer();
    one_place();
    one_list();
    one_program();
    lemma_values_of_schema();
    text::law::lemma_one_list_of_tokens();
    resolve::law::lemma_link_faults_exclude();
    resolve::law::one_program();
    tagging::law::lemma_fault_excludes();
    constraints::law::lemma_fault_excludes();
    extensions::law::lemma_fault_excludes();
    settled::law::same_tags();
    schema_of::law::same_values();
    value_notations::law::one_value();
    one_meaning();
    one_name();
    printed_values::law::lemma_printed_is_read_back();
}
