//! What constraints allow of the numbers or sizes of a type (X.680, 51).

ghost use Rattle.std.specs.Prelude.{◌≡◌};
ghost use Rattle.asn_base.specs.Seen.{constraint_of};
ghost use Rattle.asn_base.specs.Types.{any_number, any_size};

use crate::range_tree::RangeTree;

/// A range of numbers or sizes. An end is None where it has no bound.
#[derive(Clone, Copy)]
pub struct Range {
    pub least: Option<i128>,
    pub greatest: Option<i128>,
}

/// The least and the greatest number or size of a constraint's root, None where there is no bound.
#[derive(Clone, Copy)]
pub struct Bounds {
    pub least: Option<i128>,
    pub greatest: Option<i128>,
    pub extensible: bool,
}

/// What the constraints of a type allow: the numbers in the ranges of `allowed`, or every number if it is None.
/// `visible` has the bounds of the root, which the packed encoding uses (X.691, 10.3).
pub struct Constraint {
    pub allowed: Option<RangeTree>,
    pub visible: Bounds,
}

impl Constraint {
    /// The constraint that allows every number.
    pub fn any_number() -> Self
        ensures { constraint_of result ≡ any_number }
    {
        Constraint {
            allowed: None,
            visible: Bounds {
                least: None,
                greatest: None,
                extensible: false,
            },
        }
    }

    /// The constraint that allows every size, from 0.
    pub fn any_size() -> Self
        ensures { constraint_of result ≡ any_size }
    {
        Constraint {
            allowed: None,
            visible: Bounds {
                least: Some(0),
                greatest: None,
                extensible: false,
            },
        }
    }
}

impl Drop for Constraint {
    fn drop(self) {
        let Constraint {
            allowed: _,
            visible: _,
        } = self;
    }
}
