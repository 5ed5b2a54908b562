// One statement joined to another: what the giver has goes to the receiver.
ghost use Rattle.std.specs.Prelude.{◌≡◌, ◌+◌, ◌≤◌, List, length, OnErr};
ghost use Rattle.statement.specs.Account.{Entry, Reaches, receiver_noted, giver_noted};
ghost use Rattle.statement.specs.Joining.{lines_together, days_together, join_answer, united, emptied, receiver_after, giver_after};
ghost use Rattle.statement.specs.Statement.{model};

use super::{MOST_TAKEN, Statement};
use crate::board::RefusalBoard;
use crate::joining::JoinFault;
use ledger::day::DayRow;
use ledger::line::LineRow;
use ledger::store::RowStore;
use merging::{pour, rows_together};

impl<L: RowStore<Row = LineRow>, D: RowStore<Row = DayRow>> Statement<L, D> {
    // Whether the giver may be joined; nothing changes.
    fn joinable<M: RowStore<Row = LineRow>, E: RowStore<Row = DayRow>>(
        &mut self,
        giver: &mut Statement<M, E>,
    ) -> Result<(), JoinFault>
        ensures answer { result ≡ join_answer (model L.RowStore D.RowStore self.old) (model M.RowStore E.RowStore giver.old) }
        ensures receiver { self.new ≡ self.old }
        ensures giver { giver.new ≡ giver.old }
    {
        if self.basis != giver.basis {
            return Err(JoinFault::Unlike);
        }
        if self.taken + giver.taken > MOST_TAKEN {
            return Err(JoinFault::TooMany);
        }
        if rows_together(&mut self.lines, &mut giver.lines) > self.lines.size().most as u128 {
            return Err(JoinFault::Lines);
        }
        if rows_together(&mut self.days, &mut giver.days) > self.days.size().most as u128 {
            return Err(JoinFault::Days);
        }
        Ok(())
    }

    // What the giver has goes to the receiver, which has room for it.
    fn unite<M: RowStore<Row = LineRow>, E: RowStore<Row = DayRow>>(
        &mut self,
        giver: &mut Statement<M, E>,
    )
        requires taken { self.old.taken + giver.old.taken ≤ 2000000 }
        requires lines { length (lines_together (model L.RowStore D.RowStore self.old) (model M.RowStore E.RowStore giver.old)) ≤ (model L.RowStore D.RowStore self.old).lines.most }
        requires days { length (days_together (model L.RowStore D.RowStore self.old) (model M.RowStore E.RowStore giver.old)) ≤ (model L.RowStore D.RowStore self.old).days.most }
        ensures receiver { model L.RowStore D.RowStore self.new ≡ united (model L.RowStore D.RowStore self.old) (model M.RowStore E.RowStore giver.old) }
        ensures giver { model M.RowStore E.RowStore giver.new ≡ emptied (model M.RowStore E.RowStore giver.old) }
    {
        pour(&mut self.lines, &mut giver.lines);
        pour(&mut self.days, &mut giver.days);
        self.taken += giver.taken;
        self.board.join(giver.board);
        giver.taken = 0;
        giver.board = RefusalBoard::new();
    }

    // Puts the giver's rows into this statement, adds its records taken and its refusals, and leaves the giver as newly
    // opened. A refused join changes neither.
    pub fn join<M: RowStore<Row = LineRow>, E: RowStore<Row = DayRow>>(
        &mut self,
        giver: &mut Statement<M, E>,
    ) -> Result<(), JoinFault>
        ensures answer { result ≡ join_answer (model L.RowStore D.RowStore self.old) (model M.RowStore E.RowStore giver.old) }
        ensures receiver { model L.RowStore D.RowStore self.new ≡ receiver_after (model L.RowStore D.RowStore self.old) (model M.RowStore E.RowStore giver.old) result }
        ensures giver { model M.RowStore E.RowStore giver.new ≡ giver_after (model M.RowStore E.RowStore giver.old) result }
        ensures same { OnErr result (self.new ≡ self.old) }
        ensures same_giver { OnErr result (giver.new ≡ giver.old) }
        ensures reached { (a c : List Entry) → Reaches (model L.RowStore D.RowStore self.old) a → Reaches (model M.RowStore E.RowStore giver.old) c → Reaches (model L.RowStore D.RowStore self.new) (receiver_noted a c result) × Reaches (model M.RowStore E.RowStore giver.new) (giver_noted c result) }
    {
        self.joinable(giver)?;
        self.unite(giver);
        Ok(())
    }
}
