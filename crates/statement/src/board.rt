// The refusals counted: for each number from 2 to 13 a count and the least sequential.
ghost use Rattle.std.specs.Prelude.{◌≡◌, ℕ, ◌+◌, ◌-◌, ◌^◌, ◌<◌, ◌≤◌, slice_index_or};
ghost use Rattle.statement.specs.Board.{lesser_of, no_tally, tallies_joined, each_joined, boards_joined, clear_board, noted_tally, noted, tally_at, tally_of};

// The numbers 2 to 13.
pub const NUMBERS: usize = 12;

pub const LEAST_NUMBER: u8 = 2;

pub const GREATEST_NUMBER: u8 = 13;

// How many records a number refused, and the least sequential among them. The board holds plain numbers, as they are
// printed, so 0 stands for none.
#[derive(Clone, Copy, PartialEq, Eq, Default, Debug)]
pub struct Tally {
    pub count: u32,
    pub least: u64,
}

// The lesser of two sequentials, where 0 is none.
fn lesser(a: u64, b: u64) -> u64
    ensures { result ≡ lesser_of a b }
{
    match (a, b) {
        (0, other) | (other, 0) => other,
        _ => a.min(b),
    }
}

impl Tally {
    // One refusal more.
    fn note(&mut self, sequential: u64)
        requires { self.old.count + 1 < 2 ^ 32 }
        ensures { self.new ≡ noted_tally self.old sequential }
    {
        self.count += 1;
        self.least = lesser(self.least, sequential);
    }

    // The refusals of another unit too.
    fn join(&mut self, other: Tally)
        requires { self.old.count + other.count < 2 ^ 32 }
        ensures { self.new ≡ tallies_joined self.old other }
    {
        self.count += other.count;
        self.least = lesser(self.least, other.least);
    }
}

// Number by number.
fn join_tallies(mine: &mut [Tally; NUMBERS], theirs: [Tally; NUMBERS])
    requires { (i : ℕ) → (slice_index_or mine.old i no_tally).count + (slice_index_or theirs i no_tally).count < 2 ^ 32 }
    ensures { mine.new ≡ each_joined mine.old theirs }
{
    // By a place, since after a loop over `mine.iter_mut().zip(theirs)` a proof knows no element of `mine`.
    for (i, tally) in mine.iter_mut().enumerate() {
        tally.join(theirs[i]);
    }
}

#[derive(Clone, Copy, PartialEq, Eq, Default, Debug)]
pub struct RefusalBoard {
    tallies: [Tally; NUMBERS],
}

impl RefusalBoard {
    // Nothing refused.
    pub fn new() -> Self
        ensures { result ≡ clear_board }
    {
        Self::default()
    }

    // The tally of a number, or none where the board has no such number.
    pub fn tally(&self, number: u8) -> Option<Tally>
        ensures { result ≡ tally_of self.now number }
    {
        let place = number.checked_sub(LEAST_NUMBER)?;
        self.tallies.get(usize::from(place)).copied()
    }

    // One refusal more under a number.
    pub(crate) fn note(&mut self, number: u8, sequential: u64)
        requires low { 2 ≤ number }
        requires high { number ≤ 13 }
        requires room { (tally_at self.old (number - 2)).count + 1 < 2 ^ 32 }
        ensures { self.new ≡ noted self.old number sequential }
    {
        self.tallies[usize::from(number - LEAST_NUMBER)].note(sequential);
    }

    // The refusals of another board too, number by number.
    pub(crate) fn join(&mut self, other: RefusalBoard)
        requires { (i : ℕ) → (tally_at self.old i).count + (tally_at other i).count < 2 ^ 32 }
        ensures { self.new ≡ boards_joined self.old other }
    {
        join_tallies(&mut self.tallies, other.tallies);
    }
}
