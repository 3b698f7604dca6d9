// Whether an integration is one that counting can leave, as far as its arithmetic needs it.
ghost use Rattle.std.specs.Prelude.{◌≡◌};
ghost use Rattle.counting.specs.Limits.{tally_within, integration_within};

use crate::{Chart, Integration, Tally};

pub fn integration_within(i: Integration) -> bool
    ensures { result ≡ integration_within i }
{
    match i {
        Integration::Idle => true,
        // A running one has a place left.
        Integration::Running(chart, t) => tally_within(t) && t.n < chart.limit(),
        Integration::Closed(t) => tally_within(t),
    }
}

// The sums that up to 600,000 wet values can reach.
fn tally_within(t: Tally) -> bool
    ensures { result ≡ tally_within t }
{
    t.n <= Chart::Long.limit()
        && t.first.unsigned_abs() <= 3000000000
        && t.last.unsigned_abs() <= 3000000000
        && t.sum.unsigned_abs() <= 1800000000000000
}
