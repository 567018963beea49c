// The time of a plan as the stand's operators read it. The task counts units of ten seconds.
#![tactic(auto)]

ghost use Rattle.std.specs.Prelude.{◌≡◌};
ghost use Rattle.shift_time.specs.Time.{time_of};

// Units in a minute.
const MINUTE: usize = 6;

// What a plan takes, in whole minutes and units left over, and the units of the shift that it leaves unused.
#[derive(Clone, Copy)]
pub struct Time {
    pub minutes: usize,
    pub units: usize,
    pub unused: usize,
}

// The time of a plan of this cost in a shift of this bound.
pub fn time_of(cost: usize, bound: usize) -> Time
    ensures { result ≡ time_of cost bound }
{
    Time {
        minutes: cost / MINUTE,
        units: cost % MINUTE,
        unused: bound.saturating_sub(cost),
    }
}
