//! The types of a kit, as what reads octets needs them.

ghost use Rattle.std.specs.Prelude.{◌≡◌};

use asn_base::schema::{Schema, TypeId};
use codec_code::Code;
use judging::front_end::Modules;

/// The modules of a kit, and its types with their codec programs.
#[derive(Clone, Copy)]
pub(crate) struct KitTypes<'a> {
    pub(crate) modules: &'a Modules,
    pub(crate) schema: &'a Schema,
    pub(crate) code: &'a Code,
    ghost same: { schema.now ≡ code.now },
}

/// A type of a kit by its number.
#[derive(Clone, Copy)]
pub(crate) struct KitType<'a> {
    pub(crate) schema: &'a Schema,
    pub(crate) code: &'a Code,
    pub(crate) id: TypeId,
    ghost same: { schema.now ≡ code.now },
}
