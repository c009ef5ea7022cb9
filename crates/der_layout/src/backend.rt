//! The table as the backend of a machine.

use crate::steps::{
    add_contents, add_left_out, add_open, add_whole, begin_group, close_header, close_plain,
    end_group, end_member, is_arranged, members_in, open_apart, open_header, open_of, put_left_out,
    put_whole,
};
use crate::table::Table;
use asn_base::tag::Tag;
use asn_base::value::Value;
use codec_code::Head;
use codec_machine::{Backend, OpenRow, RunFault};
use encodings::LeafKind;
use std::alloc::AllocError;

impl<'a> Backend<'a> for Table {
    ghost use Rattle.der_layout.specs.Tables.{Runs, state_of};

    ghost adds = { λ a es b. Runs es (state_of a) (state_of b) };

    #[inline(always)]
    fn open(&mut self, head: Head) -> Result<(), AllocError> {
        open_header(self, head)?;
        begin_group(self, head.row)?;
        Ok(())
    }

    fn leaf(&mut self, kind: LeafKind, value: &'a Value) -> Result<(), RunFault> {
        add_contents(self, kind, value)
    }

    #[inline(always)]
    fn whole(&mut self, head: Head, kind: LeafKind, value: &'a Value) -> Result<(), RunFault> {
        match add_whole(self, head, kind, value) {
            Ok(()) => Ok(()),
            Err(fault) => Err(fault),
        }
    }

    #[inline(always)]
    fn close(&mut self) -> Result<(), AllocError> {
        match self.opened.pop() {
            Some(one) => {
                if is_arranged(one.head.row) {
                    let arrangement = end_group(self, one.head.row)?;
                    close_header(self, one, arrangement)?;
                } else {
                    close_plain(self, one)?;
                }
                Ok(())
            }
            None => Ok(()),
        }
    }

    fn leave_out(&mut self, with_default: bool) -> Result<(), AllocError> {
        add_left_out(self, with_default)?;
        Ok(())
    }

    fn part(&mut self, rank: usize) -> Result<(), AllocError> {
        end_member(self, rank)?;
        Ok(())
    }

    ghost use Rattle.der_layout.specs.Tables.{RunsTo};

    ghost opened = { λ a es row b. RunsTo es row (state_of a) (state_of b) };

    #[inline(always)]
    fn open_row(&mut self, tag: Tag, constructed: bool) -> Result<OpenRow, AllocError> {
        let row = open_apart(self, tag, constructed)?;
        Ok(row)
    }

    #[inline(always)]
    fn whole_in_row(
        &mut self,
        _row: OpenRow,
        head: Head,
        kind: LeafKind,
        value: &'a Value,
    ) -> Result<(), RunFault> {
        match put_whole(self, head, kind, value) {
            Ok(()) => Ok(()),
            Err(fault) => Err(fault),
        }
    }

    #[inline(always)]
    fn leave_out_in_row(&mut self, _row: OpenRow, with_default: bool) -> Result<(), AllocError> {
        put_left_out(self, with_default)?;
        Ok(())
    }

    #[inline(always)]
    fn close_row(&mut self, row: OpenRow) -> Result<(), AllocError> {
        let one = open_of(row, self.members);
        let rows = self.rows.len();
        self.members = members_in(row, rows);
        close_plain(self, one)?;
        Ok(())
    }

    fn keep_row(&mut self, row: OpenRow) -> Result<(), AllocError> {
        let one = open_of(row, self.members);
        let rows = self.rows.len();
        add_open(&mut self.opened, one)?;
        self.members = members_in(row, rows);
        Ok(())
    }

    ghost use Rattle.der_layout.specs.Tables.{runs_more};
    ghost use Rattle.std.specs.Prelude.{refl};

    ghost nothing = { λ a. refl };

    ghost joins = { λ a b c es fs h k. runs_more es fs (state_of a) (state_of b) (state_of c) h k };
}
