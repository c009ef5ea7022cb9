//! The shape of a type after its references and tags.

ghost use Rattle.std.specs.Prelude.{◌<◌, ◌≡◌, length};
ghost use Rattle.typed_values.specs.proving.Reading.{HasShapeIn};

use asn_base::schema::TypeId;
use resolve::{Linked, NamedShape};

/// The shape of a type after its references and tags, with the names that it lists, and the module in which that shape
/// is written.
pub(crate) fn written(linked: &Linked, ty: TypeId) -> (NamedShape<'_>, &str)
    requires { ty.index < length linked.now.program.types }
    ensures { HasShapeIn linked.now ty.index result.0 result.1.now }
{
    let core = linked.core(ty);
    let home = linked.home(core);
    let _types = linked.types();
    (linked.shape(core), home.module)
}
