// Moments and stays, and when something is due: "A moment counts ticks from the start, a stay counts ticks between two moments; two
// moments are never added." Every function is total.
#![tactic(auto)]

ghost use Rattle.std.specs.Prelude.{◌≡◌, ◌+◌, ◌-◌, min, ltb};
ghost use Rattle.definition.specs.SavedRun.{not_before};
ghost use Rattle.definition.specs.Engine.{due_number};
ghost use Rattle.clock.specs.Times.{latest, time_of};
ghost use Rattle.clock.specs.After.{due_after};

use limits::{NEVER_FIELD, NEVER_MOMENT};

// A number of ticks from the start.
#[derive(Clone, Copy)]
pub struct Moment(pub u64);

// A number of ticks between two moments.
#[derive(Clone, Copy)]
pub struct Stay(pub u64);

// When something is due; none where it never is.
pub type Due = Option<Moment>;

// The latest moment that there is, which no run comes to: as a number it stands for never.
const LATEST: u64 = NEVER_MOMENT;

impl Moment {
    // The moment a stay later, or the latest one where that would lie past it.
    pub fn plus(self, stay: Stay) -> Moment
        ensures { result.0 ≡ min (self.0 + stay.0) latest }
    {
        if stay.0 <= LATEST - self.0 {
            Moment(self.0 + stay.0)
        } else {
            Moment(LATEST)
        }
    }

    // The stay from an earlier moment to this one; none where it is not earlier.
    pub fn since(self, other: Moment) -> Stay
        ensures { result.0 ≡ self.0 - other.0 }
    {
        if other.0 <= self.0 {
            Stay(self.0 - other.0)
        } else {
            Stay(0)
        }
    }

    // By hand, and not derived: moments are compared by this alone, and its edit (before_itself) is about this line.
    pub fn is_before(self, other: Moment) -> bool
        ensures { result ≡ ltb self.0 other.0 }
    {
        self.0 < other.0
    }
}

// ---- when an atomic is due: its last moment and its phase's advance

// The due moment of an atomic that has been in a phase with this advance since `last`.
pub fn due_after(last: Moment, advance: u32) -> Due
    ensures { time_of result ≡ due_after last.0 advance }
{
    if advance == NEVER_FIELD {
        return None;
    }
    Some(last.plus(Stay(advance as u64)))
}

// Nothing is due before a moment.
pub fn not_before(moment: Moment, due: Due) -> bool
    ensures { result ≡ not_before moment.0 (time_of due) }
{
    let Some(at) = due else {
        return true;
    };
    moment.0 <= at.0
}

// The moment, or 18,446,744,073,709,551,615 for never.
pub fn due_number(due: Due) -> u64
    ensures { result ≡ due_number (time_of due) }
{
    match due {
        Some(moment) => moment.0,
        None => NEVER_MOMENT,
    }
}
