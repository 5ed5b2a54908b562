// What may be wrong with rows.
ghost use Rattle.std.specs.Prelude.{◌≡◌, not, ◌<◌, ◌≤◌};
ghost use Rattle.agreement.specs.Parts.{row_width, key_length};
ghost use Rattle.agreement.specs.RowFields.{is_row};
ghost use Rattle.agreement.specs.Tables.{steps_up, first_malformed, first_not_rising};

use crate::parts::Part;

// The number of the first malformed row, from 1.
pub fn first_malformed<const N: usize>(part: Part, rows: &[[u8; N]]) -> Option<usize>
    requires { N ≡ row_width part }
    ensures { result ≡ first_malformed part rows.now }
{
    let i = rows.iter().position(
        |row|
            requires { N ≡ row_width part }
            ensures { result ≡ not (is_row part row.now) }
        { !part.is_row(row) },
    )?;
    Some(i + 1)
}

// The number of the first row whose first bytes are not above those of the row before it.
pub fn first_not_rising<const N: usize>(part: Part, rows: &[[u8; N]]) -> Option<usize>
    requires { N ≡ row_width part }
    ensures { result ≡ first_not_rising (key_length part) rows.now }
{
    let len = part.key_length();
    let (_, later) = rows.split_first()?;
    let i = rows.iter().zip(later).position(
        |(row, next)|
            requires { (len ≤ N) × (N < 9223372036854775808) }
            ensures { result ≡ not (steps_up len (row.entry.now, next.entry.now)) }
        { row[..len].cmp(&next[..len]).is_ge() },
    )?;
    Some(i + 2)
}
