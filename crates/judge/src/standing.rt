// How two stores stand, after a run.
ghost use Rattle.std.specs.Prelude.{◌≡◌};
ghost use Rattle.judge.specs.Standings.{stand_by, standing_after};

use model::{Order, Refusal, Verdict};

// Of a trace with so many events after its begin: 16 for a number that is no issue, or what the rows say.
fn stand(events: u16, work: &[u16], first: u16, second: u16) -> Result<Order, Refusal>
    ensures { result ≡ stand_by events work.now first second }
{
    if !machine::is_store(work, events, first) || !machine::is_store(work, events, second) {
        return Err(Refusal {
            number: 16,
            event: 0,
        });
    }
    Ok(machine::order_of(work, first, second))
}

// After the run that answered v: its refusal comes first.
pub(crate) fn standing(
    v: Result<Verdict, Refusal>,
    work: &[u16],
    first: u16,
    second: u16,
) -> Result<Order, Refusal>
    ensures { result ≡ standing_after v work.now first second }
{
    match v? {
        Verdict::Robust { events, .. } | Verdict::Broken { events, .. } => {
            stand(events, work, first, second)
        }
    }
}
