// The traffic of a row.
mod sums;

ghost use Rattle.ledger.specs.Sums.{IsTraffic};

// Calls and tenths of a minute, each up to its largest value.
#[derive(Clone, Copy, PartialEq, Eq)]
pub struct Traffic {
    calls: u64,
    tenths: u64,
    ghost ok: { IsTraffic calls tenths },
}
