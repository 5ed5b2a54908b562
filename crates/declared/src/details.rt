// The detail lines of a file, one after the other.
ghost use Rattle.std.specs.Iterator.{YieldsFirstBy, item_count};
ghost use Rattle.declared.specs.Details.{details_left};
ghost use Rattle.declared.specs.Lines.{seen_detail};

use crate::columns::read_line;
use crate::lines::{DeclaredLine, DetailLine, LineBytes};

// Goes through lines, and passes over totals.
#[derive(Clone, Copy)]
pub struct Details<'a> {
    pub(crate) rest: &'a [LineBytes],
}

impl<'a> Iterator for Details<'a> {
    type Item = DetailLine<'a>;

    ghost next_gives = { YieldsFirstBy seen_detail details_left };

    ghost remaining = { item_count details_left };

    fn next(&mut self) -> Option<DetailLine<'a>> {
        while let Some((first, rest)) = self.rest.split_first() {
            self.rest = rest;
            if let DeclaredLine::Detail(line) = read_line(first) {
                return Some(line);
            }
        }
        None
    }
}
