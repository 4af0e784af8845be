// Takings of unassigned kW in stage 4, at most two of a holder in a week (docs/RULES.md, "Calls of the year").
#![tactic(auto)]

ghost use Rattle.std.specs.Prelude.{◌≡◌, ◌+◌, ◌-◌, ◌<◌, ◌≤◌, ◌^◌, eqb, set};
ghost use Rattle.base.specs.Limits.{most_takings};
ghost use Rattle.base.specs.Refused.{number_in, answer_of};
ghost use Rattle.state.specs.Layout.{unassigned_at, unassigned_of, taken_at, taken_of};
ghost use Rattle.taking.specs.Calendar.{week_of, count_in, refuses_day, after_taking};
ghost use Rattle.taking.specs.Take.{calendar_of, take_refusal, take_kw, with_calendar, take};

use base::Granted;
use base::limits::{MOST_TAKINGS, WEEK_DAYS};
use base::refusals::Refusal;
use state::layout;

// The calendar of a holder's takings: the day of the last one, whoever's it was, the week of the
// holder's own last one, and the holder's takings in that week.
#[derive(Clone, Copy)]
struct Calendar {
    last_day: u32,
    week: u32,
    count: u32,
}

impl Calendar {
    // The takings in a week: 0 in any but the last taking's.
    fn count_in(self, week: u32) -> u32
        ensures { result ≡ count_in self week }
    {
        if self.week == week { self.count } else { 0 }
    }

    // Refusal 11: whether the day is before the last taking's, or its week has two takings.
    fn refuses(self, day: u32) -> bool
        ensures { result ≡ refuses_day self day }
    {
        (day < self.last_day) | (MOST_TAKINGS <= self.count_in(day / WEEK_DAYS))
    }

    // The calendar after a taking on a day.
    fn after_taking(self, day: u32) -> Calendar
        requires { count_in self (week_of day) < most_takings }
        ensures { result ≡ after_taking self day }
    {
        let week = day / WEEK_DAYS;
        Calendar {
            last_day: day,
            week,
            count: self.count_in(week) + 1,
        }
    }
}

// Takes kW that are unassigned on an intertie: the smaller of those named and those there are.
#[tactic(auto, using(call::proofs::LadderLaws::is_refused, call::proofs::LadderLaws::is_done), unfolding(crate::specs::Take::take))]
pub fn take(
    state: &mut [u32],
    holder: u32,
    intertie: u32,
    kw: u64,
    day: u32,
) -> Result<Granted, Refusal>
    ensures { let done = take state.old holder intertie kw day in
        (answer_of result ≡ done.answer) × (state.new ≡ done.state) }
{
    check_take(state, holder, intertie, kw, day)?;
    let calendar = calendar_after(state, holder, day);
    let granted = take_kw(state, intertie, kw);
    give(state, holder, intertie, granted as u32);
    keep_calendar(state, holder, calendar);
    Ok(Granted {
        kw: granted,
        passes: 0,
    })
}

// The first refusal that applies to a taking. (State, holder, intertie, kW and day one by one, as C passes them: each function
// takes only those that it needs, as its definition does.)
#[tactic(auto, using(call::proofs::LadderLaws::passes, call::proofs::LadderLaws::stops), unfolding(crate::specs::Take::take_refusal))]
fn check_take(state: &[u32], holder: u32, intertie: u32, kw: u64, day: u32) -> Result<(), Refusal>
    ensures { number_in result ≡ take_refusal state.now holder intertie kw day }
{
    call::check_open(state)?;
    call::refuse_if(call::no_pair(state, holder, intertie), Refusal::NoSuch)?;
    call::refuse_if(call::bad_kw(kw), Refusal::Range)?;
    call::refuse_if(day_refused(state, holder, day), Refusal::Day)?;
    call::refuse_if(none_unassigned(state, intertie), Refusal::NoneLeft)
}

// The calendar of a holder.
fn calendar_of(state: &[u32], holder: u32) -> Calendar
    ensures { result ≡ calendar_of state.now holder }
{
    Calendar {
        last_day: state::word(state, layout::YEAR, layout::LAST_DAY),
        week: state::word(state, layout::LAST_WEEK, holder),
        count: state::word(state, layout::TAKINGS, holder),
    }
}

// Refusal 11: whether the holder's calendar refuses the day.
fn day_refused(state: &[u32], holder: u32, day: u32) -> bool
    ensures { result ≡ refuses_day (calendar_of state.now holder) day }
{
    calendar_of(state, holder).refuses(day)
}

// The holder's calendar after a taking on a day.
fn calendar_after(state: &[u32], holder: u32, day: u32) -> Calendar
    requires { count_in (calendar_of state.now holder) (week_of day) < most_takings }
    ensures { result ≡ after_taking (calendar_of state.now holder) day }
{
    calendar_of(state, holder).after_taking(day)
}

// Refusal 12: whether the intertie has nothing unassigned.
fn none_unassigned(state: &[u32], intertie: u32) -> bool
    ensures { result ≡ eqb (unassigned_of state.now intertie) 0 }
{
    state::word(state, layout::UNASSIGNED, intertie) == 0
}

// The smaller of the kW named and the unassigned.
fn take_kw(state: &[u32], intertie: u32, kw: u64) -> u64
    ensures { result ≡ take_kw state.now intertie kw }
{
    kw.min(u64::from(state::word(state, layout::UNASSIGNED, intertie)))
}

// Gives unassigned kW of an intertie to a holder, into taken.
fn give(state: &mut [u32], holder: u32, intertie: u32, kw: u32)
    requires { (kw ≤ unassigned_of state.old intertie) × (taken_of state.old holder intertie + kw < 2 ^ 32) }
    ensures { let s = state.old in state.new
        ≡ set (set s (unassigned_at intertie) (unassigned_of s intertie - kw))
        (taken_at holder intertie) (taken_of s holder intertie + kw) }
{
    let unassigned = state::word(state, layout::UNASSIGNED, intertie);
    let taken = state::pair_word(state, layout::TAKEN, holder, intertie);
    state::store(state, layout::UNASSIGNED, intertie, unassigned - kw);
    state::store_pair(state, layout::TAKEN, holder, intertie, taken + kw);
}

// Writes a holder's calendar.
fn keep_calendar(state: &mut [u32], holder: u32, calendar: Calendar)
    ensures { state.new ≡ with_calendar state.old holder calendar }
{
    state::store(state, layout::YEAR, layout::LAST_DAY, calendar.last_day);
    state::store(state, layout::LAST_WEEK, holder, calendar.week);
    state::store(state, layout::TAKINGS, holder, calendar.count);
}
