// The lines that say what was refused.
ghost use Rattle.std.specs.Prelude.{◌≡◌, ◌-◌, ◌≤◌, ◌++◌, IfOk, OnOk};
ghost use Rattle.digits.specs.Positional.{write_decimal};
ghost use Rattle.statement.specs.Board.{tally_at};
ghost use Rattle.settlement.specs.Refusals.{line_if_met, refusal_line, refusal_lines};

use digits::write_decimal;
use statement::board::{GREATEST_NUMBER, LEAST_NUMBER, RefusalBoard, Tally};
use std::alloc::{AllocError, Global};

// Adds the WIDTH lowest digits of a number, leading zeros included.
fn push_digits<const WIDTH: usize>(text: &mut Vec<u8>, n: u64) -> Result<(), AllocError>
    requires { WIDTH ≤ 10 }
    ensures { OnOk result (text.new.items ≡ text.old.items ++ write_decimal WIDTH n) }
{
    let mut digits = [0; WIDTH];
    write_decimal(&mut digits, n);
    text.extend_from_slice(&digits)
}

// The line of one number: two digits, the count in seven, the least sequential in ten.
fn push_line(text: &mut Vec<u8>, number: u8, tally: Tally) -> Result<(), AllocError>
    ensures { OnOk result (text.new.items ≡ text.old.items ++ refusal_line number tally) }
{
    push_digits::<2>(text, number as u64)?;
    text.push(b' ')?;
    push_digits::<7>(text, tally.count as u64)?;
    text.push(b' ')?;
    push_digits::<10>(text, tally.least)?;
    text.push(b'\n')?;
    Ok(())
}

// The line of a number of the board, if it refused a record.
fn push_if_met(text: &mut Vec<u8>, number: u8, board: &RefusalBoard) -> Result<(), AllocError>
    requires low { 2 ≤ number }
    requires high { number ≤ 13 }
    ensures { OnOk result (text.new.items ≡ text.old.items ++ line_if_met number (tally_at board.now (number - 2))) }
{
    match board.tally(number).filter(|tally| tally.count > 0) {
        Some(tally) => push_line(text, number, tally),
        None => Ok(()),
    }
}

// A line for each number that refused a record, rising.
pub fn refusal_lines(heap: Global, board: &RefusalBoard) -> Result<Vec<u8>, AllocError>
    ensures { IfOk result (λ v. v.items ≡ refusal_lines board.now) }
{
    let mut text = Vec::new(heap);
    for number in LEAST_NUMBER..=GREATEST_NUMBER {
        push_if_met(&mut text, number, board)?;
    }
    Ok(text)
}
