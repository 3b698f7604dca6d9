// Whether a record is one that a list of events can leave, as far as the arithmetic needs it.
ghost use Rattle.std.specs.Prelude.{◌≡◌};
ghost use Rattle.rules.specs.Limits.{loaded_within};
ghost use Rattle.rules.specs.Limits.{workable as Limits·workable};

use counting::limits::integration_within;
use curve::Sheet;
use curve::limits::{sheet_within, within};
use rules::State;
use sampling::mode_within;
use store::stored_within;

pub(crate) fn workable(st: State) -> bool
    ensures { result ≡ Limits·workable st }
{
    loaded_within(st.loaded)
        && st.q.unsigned_abs() <= 20000000
        && within(500000, 2000000, st.s)
        && mode_within(st.mode)
        && integration_within(st.integration)
        && stored_within(st.stored)
}

fn loaded_within(loaded: Option<Sheet>) -> bool
    ensures { result ≡ loaded_within loaded }
{
    match loaded {
        Some(sheet) => sheet_within(sheet),
        None => true,
    }
}
