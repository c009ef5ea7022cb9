//! Open modules.

use crate::calls::{Call, measure};
use crate::lines::{Work, print_count, print_since, refused};
use asn_base::schema::{Schema, TypeId};
use codec_code::{Code, compile};
use front_end::tagging::tag;
use front_end::{Modules, open};
use packed_code::{PackedCode, compile_packed};
use resolve::Referent;
use std::io;
use std::time::Instant;

/// Modules that are open, their types, and the routines of the types.
#[derive(Drop)]
pub struct Kit {
    pub modules: Modules,
    pub schema: Schema,
    pub code: Code,
    pub packed: PackedCode,
}

/// A type of open modules.
#[derive(Clone, Copy)]
pub struct Target<'t> {
    pub kit: &'t Kit,
    pub id: TypeId,
}

impl Kit {
    /// The type with the name `Module.Type`.
    pub fn type_named(&self, word: &str) -> Option<TypeId> {
        let (within, name) = word.split_once('.')?;
        match self.modules.linked().find(within, name) {
            Some(Referent::TypeNamed(id)) => Some(id),
            _ => None,
        }
    }
}

/// Opens modules, and prints the time that it takes, or the fault of the texts.
pub fn opened(rt: &HostRuntime, texts: &[Vec<u8>]) -> io::Result<Kit> {
    let start = Instant::now(rt)?;
    let front = match open(rt.alloc(), texts) {
        Ok(front) => front,
        Err(fault) => {
            println!(rt; "{fault}")?;
            return refused(rt, "modules", "not opened");
        }
    };
    print_since(rt, start, "modules", "opened")?;
    let Ok(code) = compile(rt.alloc(), &front.schema) else {
        return refused(rt, "modules", "not compiled");
    };
    let packed = compile_packed(rt.alloc(), &front.schema)?;
    Ok(Kit {
        modules: front.modules,
        schema: front.schema,
        code,
        packed,
    })
}

/// Measures the constraints of open modules, whose texts have so many octets. It prints how many types they have.
pub fn measure_bounds(rt: &HostRuntime, kit: &Kit, octets: usize) -> io::Result<()> {
    let linked = kit.modules.linked();
    print_count(rt, "modules", linked.types().len(), "types")?;
    let Ok(tagged) = tag(rt.alloc(), linked) else {
        return refused(rt, "modules", "not tagged");
    };
    let work = Work { times: 1, octets };
    measure(rt, "modules", Call::Bound(&tagged), work)
}
