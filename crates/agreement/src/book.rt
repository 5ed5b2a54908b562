// The tariff book of an agreement file.
mod questions;

ghost use Rattle.std.specs.Prelude.{◌≡◌, true, ◌&&◌};
ghost use Rattle.agreement.specs.Sound.{is_sound};
ghost use Rattle.agreement.specs.declared.parts.Part.TheVariants.{Scenarios, Tariffs};

use crate::parts::{SCENARIO_ROW, TARIFF_ROW};

// A view of the bytes of an agreement: the rows of CENA and TARI, none where the agreement is refused.
#[derive(Clone, Copy)]
pub struct FileBook<'a> {
    scenarios: &'a [[u8; SCENARIO_ROW]],
    tariffs: &'a [[u8; TARIFF_ROW]],
    ghost ok: { (is_sound Scenarios scenarios.now && is_sound Tariffs tariffs.now) ≡ true },
}
