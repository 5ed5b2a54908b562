// The parts of an agreement file.
ghost use Rattle.std.specs.Prelude.{◌≡◌, ◌≤◌};
ghost use Rattle.agreement.specs.Parts.{part_number, part_name, row_width, key_length, least_rows, most_rows};

// Bytes of a row of each part: the widths of its type.
pub(crate) const PARTIES_ROW: usize = 17;

pub(crate) const SCENARIO_ROW: usize = 14;

pub(crate) const TARIFF_ROW: usize = 30;

#[derive(Clone, Copy, PartialEq, Eq, Debug)]
pub enum Part {
    // PART: who bills whom, and at which tax rates.
    Parties,
    // CENA: how calls of a descriptor are charged.
    Scenarios,
    // TARI: what a minute costs.
    Tariffs,
}

// One match for each column: a table of structs would state the columns' bounds a second time, as its invariant.
impl Part {
    // The number in a refusal.
    pub(crate) fn number(self) -> u8
        ensures { result ≡ part_number self }
    {
        match self {
            Part::Parties => 1,
            Part::Scenarios => 2,
            Part::Tariffs => 3,
        }
    }

    // The name in the contents.
    pub(crate) fn name(self) -> &'static [u8]
        ensures { result.now ≡ part_name self }
    {
        match self {
            Part::Parties => b"PART",
            Part::Scenarios => b"CENA",
            Part::Tariffs => b"TARI",
        }
    }

    // The first bytes of a row, by which the rows rise.
    pub(crate) fn key_length(self) -> usize
        ensures value { result ≡ key_length self }
        ensures within { result ≤ row_width self }
    {
        match self {
            Part::Parties => PARTIES_ROW,
            Part::Scenarios => 5,
            Part::Tariffs => 23,
        }
    }

    // The least rows, and the most.
    pub(crate) fn least_rows(self) -> u64
        ensures { result ≡ least_rows self }
    {
        match self {
            Part::Parties => 1,
            Part::Scenarios => 0,
            Part::Tariffs => 0,
        }
    }

    pub(crate) fn most_rows(self) -> u64
        ensures value { result ≡ most_rows self }
        ensures small { result ≤ 1900 }
    {
        match self {
            Part::Parties => 1,
            Part::Scenarios => 200,
            Part::Tariffs => 1900,
        }
    }
}
