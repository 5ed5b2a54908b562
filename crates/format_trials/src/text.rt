// A text of a file or an image as it is printed: its blanks as underscores.
use std::fmt;

#[derive(Clone, Copy)]
pub struct Text<'a> {
    pub bytes: &'a [u8],
}

impl<'a> fmt::Display for Text<'a> {
    fn fmt<W: fmt::Write>(&self, f: &mut fmt::Formatter<W>) -> fmt::Result {
        for b in self.bytes {
            let shown = if *b == b' ' { '_' } else { *b as char };
            write!(f, "{shown}")?;
        }
        Ok(())
    }
}
