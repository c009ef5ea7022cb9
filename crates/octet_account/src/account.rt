//! Accounts of encodings.

ghost use Rattle.std.specs.Prelude.{◌≡◌};
ghost use Rattle.encodings.specs.Account.{Account as Account'};
ghost use Rattle.octet_account.specs.Flat.{AreRows};
ghost use Rattle.octet_account.specs.Seen.{flat};

use crate::ends::with_ends;
use crate::row::Row;
use std::marker::Model;

/// An account of how the octets of an encoding are made up (X.690, 8.1), seen as a tree of headers. Its rows are nested
/// at most 400 deep, and each number in them is at most 16,777,216.
pub struct Account {
    rows: Vec<Row>,
}

impl Model for Account {
    ghost use Rattle.encodings.specs.Account.{Account as Account'};
    ghost use Rattle.std.specs.Coded.{codes};
    ghost use Rattle.octet_account.specs.proving.Codes.{account_code};

    ghost Value = { Account' };

    ghost coded = { Prim.hlevel (codes, account_code) };

    ghost use Rattle.octet_account.specs.Seen.{flat};
    ghost use Rattle.octet_account.specs.proving.Trees.{tree_of};

    ghost view = { λ a. tree_of (flat a.rows.items) };

    ghost use Rattle.octet_account.specs.Flat.{AreRows};

    ghost invariant = { λ a. AreRows (tree_of (flat a.rows.items)) (flat a.rows.items) };
}

impl Account {
    /// The account with these rows, which must be those of an account, the root first. The call takes no memory, and
    /// its time is linear in the number of rows.
    pub fn of(rows: Vec<Row>) -> Self
        requires { (a : Account') × AreRows a (flat rows.items) }
        ensures { AreRows result (flat rows.items) }
    {
        let rows = with_ends(rows);
        Account { rows }
    }

    /// The rows of the account, the root first.
    pub fn rows(&self) -> &[Row]
        ensures { AreRows self.now (flat result.now) }
    {
        &self.rows
    }
}

impl Drop for Account {
    fn drop(self) {
        let Account { rows: _ } = self;
    }
}
