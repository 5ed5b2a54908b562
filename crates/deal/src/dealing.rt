// The runs: in order, reversed, and dealt out over units that are then joined.
ghost use Rattle.std.specs.Prelude.{◌<◌};
ghost use Rattle.ledger.specs.Ledger.{Kept as StoreKept};
ghost use Rattle.ledger.specs.Rows.{line_keys, day_keys};

use crate::contents::Contents;
use agreement::book::FileBook;
use anyhow::anyhow;
use ledger::day::DayRow;
use ledger::line::LineRow;
use ledger::store::RowStore;
use piles::pile::{Pile, ROOM_FOR_500, over};
use piles::user::StoreUser;
use statement::statement::Statement;
use values::terms::Basis;

// What is settled, the records in the order in which they are taken.
#[derive(Clone, Copy)]
pub struct Input<'a> {
    pub basis: Basis,
    pub book: FileBook<'a>,
    pub records: &'a [&'a [u8]],
}

// Which records a unit takes: every `units`-th from the `unit`-th on.
#[derive(Clone, Copy)]
struct Share<'a> {
    input: Input<'a>,
    unit: usize,
    units: usize,
    ghost some: { 0 < units },
}

impl<'a> Share<'a> {
    // The statement of the unit.
    fn settle<L: RowStore<Row = LineRow> + Drop, D: RowStore<Row = DayRow> + Drop>(
        self,
        lines: L,
        days: D,
    ) -> Statement<L, D>
        requires lines { StoreKept line_keys (L.RowStore.ledger lines) (L.RowStore.kept lines) }
        requires days { StoreKept day_keys (D.RowStore.ledger days) (D.RowStore.kept days) }
    {
        let input = self.input;
        let mut statement = Statement::open(input.basis, lines, days);
        for record in input.records.iter().skip(self.unit).step_by(self.units) {
            let _ = statement.take(&input.book, *record);
        }
        statement
    }
}

// A unit whose part goes to the receiver.
#[derive(Drop)]
struct Giver<'a, 'b, L: RowStore<Row = LineRow>, D: RowStore<Row = DayRow>> {
    share: Share<'a>,
    receiver: &'b mut Statement<L, D>,
}

impl<'a, 'b, L: RowStore<Row = LineRow>, D: RowStore<Row = DayRow>> StoreUser
    for Giver<'a, 'b, L, D> {
    type Answer = ();

    fn run<M: RowStore<Row = LineRow> + Drop, E: RowStore<Row = DayRow> + Drop>(
        self,
        _rt: &HostRuntime,
        lines: M,
        days: E,
    ) -> anyhow::Result<()> {
        let Giver { share, receiver } = self;
        let mut giver = share.settle(lines, days);
        receiver.join(&mut giver).map_err(|fault| {
            let number = fault.number();
            anyhow!("the join is refused: {number}")
        })
    }
}

// The records dealt out over the receiver and over a giver on each of these piles.
#[derive(Clone, Copy)]
struct Receiver<'a> {
    input: Input<'a>,
    givers: &'a [Pile],
}

impl<'a> StoreUser for Receiver<'a> {
    type Answer = Contents;

    fn run<L: RowStore<Row = LineRow> + Drop, D: RowStore<Row = DayRow> + Drop>(
        self,
        rt: &HostRuntime,
        lines: L,
        days: D,
    ) -> anyhow::Result<Contents> {
        let input = self.input;
        let units = self.givers.len() + 1;
        let mut receiver = Share {
            input,
            unit: 0,
            units,
        }
        .settle(lines, days);
        for (unit, pile) in (1..units).zip(self.givers) {
            let share = Share { input, unit, units };
            over(
                rt,
                *pile,
                ROOM_FOR_500,
                Giver {
                    share,
                    receiver: &mut receiver,
                },
            )?;
        }
        Contents::of(rt, &mut receiver)
    }
}

// What a statement keeps of the records dealt out over these piles.
fn dealt(
    rt: &HostRuntime,
    input: Input<'_>,
    receiver: Pile,
    givers: &[Pile],
) -> anyhow::Result<Contents> {
    over(rt, receiver, ROOM_FOR_500, Receiver { input, givers })
}

fn show(rt: &HostRuntime, name: &str, whole: &Contents, other: &Contents) -> anyhow::Result<()> {
    let what = whole.first_difference(other).unwrap_or("the same");
    println!(rt; "{name}: {what}")?;
    Ok(())
}

// The last record first. The one list is walked from its end, since a second would take as much memory again.
#[derive(Clone, Copy)]
struct Reversed<'a> {
    input: Input<'a>,
}

impl<'a> StoreUser for Reversed<'a> {
    type Answer = Contents;

    fn run<L: RowStore<Row = LineRow> + Drop, D: RowStore<Row = DayRow> + Drop>(
        self,
        rt: &HostRuntime,
        lines: L,
        days: D,
    ) -> anyhow::Result<Contents> {
        let input = self.input;
        let mut statement = Statement::open(input.basis, lines, days);
        for record in input.records.iter().rev() {
            let _ = statement.take(&input.book, *record);
        }
        Contents::of(rt, &mut statement)
    }
}

pub fn run(rt: &HostRuntime, input: Input<'_>) -> anyhow::Result<()> {
    let whole = dealt(rt, input, Pile::Table, &[])?;
    let taken = whole.taken();
    println!(rt; "in order, in tables: {taken} records taken")?;
    if whole.refused_for_space() {
        println!(rt;
            "some records are refused for space, so order and dealing may change what is booked"
        )?;
    }
    let reversed = over(rt, Pile::HeldTable, ROOM_FOR_500, Reversed { input })?;
    show(rt, "reversed, in held tables", &whole, &reversed)?;
    let two = dealt(rt, input, Pile::Table, &[Pile::Image])?;
    show(
        rt,
        "split over two units, in tables and in images",
        &whole,
        &two,
    )?;
    let three = dealt(rt, input, Pile::Image, &[Pile::HeldTable, Pile::Table])?;
    show(
        rt,
        "split over three units, in images, held tables and tables",
        &whole,
        &three,
    )
}
