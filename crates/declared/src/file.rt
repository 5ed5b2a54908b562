// A declared file.
ghost use Rattle.std.specs.Prelude.{◌≡◌, ◌<◌, ◌^◌, length};
ghost use Rattle.declared.specs.Details.{details, details_left};
ghost use Rattle.declared.specs.File.{read_file, seen_read, seen_file, line_of, detail_count};
ghost use Rattle.declared.specs.Lines.{seen_option};
ghost use Rattle.declared.specs.RoundTrips.{WritesBack, ReadsBack};

use crate::checks::{check_fields, check_length, check_lines};
use crate::columns::{read_head, read_line};
use crate::details::Details;
use crate::faults::ReadFault;
use crate::lines::{DeclaredLine, Head, LineBytes};
use detraf::line::LINE_WIDTH;

// A file that was accepted.
#[derive(Clone, Copy, PartialEq, Eq, Debug)]
pub struct Declared<'a> {
    lines: &'a [LineBytes],
    head: Head,
}

// The file, or the refusal of lowest number.
pub fn read(bytes: &[u8]) -> Result<Declared<'_>, ReadFault>
    ensures value { seen_read result ≡ read_file bytes.now }
    ensures back { WritesBack bytes.now }
    ensures reads { ReadsBack }
{
    check_length(bytes.len())?;
    let (lines, _) = bytes.as_chunks::<LINE_WIDTH>();
    check_fields(lines)?;
    check_lines(lines)?;
    let head = read_head(&lines[0]);
    Ok(Declared { lines, head })
}

impl<'a> Declared<'a> {
    // The parties and the reference month.
    pub fn head(self) -> Head
        ensures { result ≡ (seen_file self.entry).head }
    {
        self.head
    }

    // How many detail lines there are.
    pub fn detail_count(self) -> usize
        ensures { result ≡ detail_count (seen_file self.entry) }
    {
        self.lines.len().saturating_sub(1)
    }

    // The detail lines, in the order of the file.
    pub fn details(self) -> Details<'a>
        ensures value { details_left result ≡ details (seen_file self.entry) }
        ensures bound { length (details_left result) < 2 ^ 64 }
    {
        Details {
            rest: &self.lines[..self.detail_count()],
        }
    }

    // The line at index i, or none past the end.
    pub fn line(self, i: usize) -> Option<DeclaredLine<'a>>
        ensures { seen_option result ≡ line_of (seen_file self.entry) i }
    {
        self.lines.get(i).map(|line| read_line(line))
    }
}
