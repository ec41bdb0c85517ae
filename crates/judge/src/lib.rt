// The calls about a whole trace. `judge` says whether a choice of crash points explains its counted loads, `order` how
// two stores of it stand by happens-before. No public call has a `requires`; each says its answer, and every number
// that it was lent, for all inputs.
#![tactic(auto)]

ghost use Rattle.std.specs.Prelude.{◌≡◌, true, ℕ, ◌≤◌, length, replicate};
ghost use Rattle.model.specs.Answers.{verdict_answer, order_answer};
ghost use Rattle.model.specs.Reading.{events, reading_of, begun_reading, AcceptedWith};
ghost use Rattle.model.specs.Judge.{reading_answer, reading_cut, judge_of, cut_after, work_after};
ghost use Rattle.model.specs.Judge.{reading_standing, order_of, order_work_after, store?};
ghost use Rattle.model.specs.Demand.{Claims, Stands};

mod loads;
mod run;
mod standing;
mod stop;
mod verdict;

use model::{Order, Refusal, Verdict};

// ---- judging

// The judging over a work area and a cut buffer. Empty bytes are a trace with no events: its least choice is 0
// everywhere, and since there is no store, the share is 100.
fn judge_over(
    trace: &[u8],
    area: &mut [u16; 32768],
    cut: &mut [u16; 56],
) -> Result<Verdict, Refusal>
    ensures result_value { verdict_answer result ≡ reading_answer trace.now (reading_of trace.now) }
    ensures cut_after { cut.new
        ≡ reading_cut trace.now cut.old (reading_of trace.now) }
    ensures area_after { area.new ≡ replicate 32768 0 }
{
    if trace.is_empty() {
        area::clear(area);
        area::clear(cut);
        return Ok(Verdict::Robust {
            events: 0,
            share: 100,
        });
    }
    let r = run::run(trace, area, cut);
    area::clear(area);
    r
}

// Whether a choice of crash points, one per thread and stretch and closed under happens-before, explains the trace's
// counted loads. The work area is at least 32,768 numbers, else refusal 14; the cut buffer is 56, else 15; then the
// trace's own refusals. A robust trace's least choice goes to the cut buffer, which is else as lent. Empty
// bytes are a robust trace with no events.
pub fn judge(trace: &[u8], work: &mut [u16], cut: &mut [u16]) -> Result<Verdict, Refusal>
    ensures answer { verdict_answer result
        ≡ judge_of trace.now (length work.old) (length cut.old) }
    ensures cut { cut.new
        ≡ cut_after trace.now (length work.old) cut.old }
    ensures work { work.new ≡ work_after work.old (length cut.old) }
    ensures demand { (N : ℕ) → AcceptedWith trace.now N → 32768 ≤ length work.old
        → length cut.old ≡ 56
        → Claims (events trace.now) N cut.old cut.new (verdict_answer result) }
{
    let Some(area) = work.first_chunk_mut::<32768>() else {
        return Err(Refusal {
            number: 14,
            event: 0,
        });
    };
    let Some(counts) = cut.as_mut_array::<56>() else {
        return Err(Refusal {
            number: 15,
            event: 0,
        });
    };
    judge_over(trace, area, counts)
}

// ---- the order query

// The query over a work area. The run is the one that judges; its cut buffer is this call's own.
fn order_over(
    trace: &[u8],
    area: &mut [u16; 32768],
    first: u16,
    second: u16,
) -> Result<Order, Refusal>
    ensures result_value { order_answer result
        ≡ reading_standing trace.now first second (begun_reading trace.now) }
    ensures area_after { area.new ≡ replicate 32768 0 }
{
    let mut cut = [0; 56];
    let v = run::run(trace, area, &mut cut);
    let r = standing::standing(v, area, first, second);
    area::clear(area);
    r
}

// How the store that event `first` issues stands to that of event `second`. The work area is at least 32,768 numbers,
// else refusal 14; then 1 for empty bytes, and the trace's own refusals; then 16 for a number that is no issue.
pub fn order(trace: &[u8], work: &mut [u16], first: u16, second: u16) -> Result<Order, Refusal>
    ensures answer { order_answer result ≡ order_of trace.now (length work.old) first second }
    ensures work { work.new ≡ order_work_after work.old }
    ensures demand { (N : ℕ) → AcceptedWith trace.now N → 32768 ≤ length work.old
        → store? (events trace.now) N first ≡ true
        → store? (events trace.now) N second ≡ true
        → Stands (events trace.now) first second (order_answer result) }
{
    let Some(area) = work.first_chunk_mut::<32768>() else {
        return Err(Refusal {
            number: 14,
            event: 0,
        });
    };
    order_over(trace, area, first, second)
}
