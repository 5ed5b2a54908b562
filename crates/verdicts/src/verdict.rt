// What a contest says of a detail line.
ghost use Rattle.std.specs.Prelude.{◌≡◌};
ghost use Rattle.verdicts.specs.Verdicts.{verdict_code};

#[derive(Clone, Copy, PartialEq, Eq, Debug)]
pub enum Verdict {
    Right,
    // The month is none of the statement's.
    Month,
    // On no day of the month does the book give the tariff.
    Tariff,
    Net,
    // A tax or the gross amount is wrong.
    Tax,
}

impl Verdict {
    // The verdict as a byte.
    pub fn code(self) -> u8
        ensures { result ≡ verdict_code self }
    {
        match self {
            Verdict::Right => 0,
            Verdict::Month => 1,
            Verdict::Tariff => 2,
            Verdict::Net => 3,
            Verdict::Tax => 4,
        }
    }
}
