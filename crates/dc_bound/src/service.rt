//! Floors on the steps that so many consecutive whole ticks hold.

ghost use Rattle.std.specs.Prelude.{◌≡◌, ℕ, ◌+◌, ◌*◌, ◌/◌, ◌%◌, ◌^◌, ◌<◌, ◌≤◌, ◌↔◌, List, length};
ghost use Rattle.dc_bound.specs.Window.{count_in, HoldAtLeast};
ghost use Rattle.dc_bound.specs.lemmas.Budget.{pace_zero, pace_mono, pace_holds};
ghost use Rattle.dc_bound.specs.Rounds.{among, is_at, fewest_visits};
ghost use Rattle.dc_bound.specs.lemmas.Cycle.{fewest_visits_zero, fewest_visits_mono};
ghost use Rattle.dc_bound.specs.Turns.{VisitsInTurn};
ghost use Rattle.dc_bound.specs.lemmas.Visited.{in_turn_holds};
ghost use Rattle.dc_bound.specs.declared.limits.TheConstants.{LONGEST_SPAN, MOST_PLACES};

/// What so many consecutive whole ticks serve at least.
pub trait ServiceBound {
    // the fewest steps in d whole ticks
    ghost floor: { Self → ℕ → ℕ };

    // the lists of ticks of steps, of which so many ticks are whole, that meet the floor
    ghost serves: { Self → (whole : ℕ) → List ℕ → Type 0 };

    /// The fewest steps in any `d` consecutive whole ticks; `d` is at most
    /// [`LONGEST_SPAN`](crate::LONGEST_SPAN).
    fn at_least(&self, d: u32) -> u64
        requires { d ≤ LONGEST_SPAN }
        ensures { result ≡ floor self.now d };

    // no ticks serve nothing
    ghost floor_zero: { (x : Self) → floor x 0 ≡ 0 };

    // more ticks serve no less
    ghost floor_monotone: { (x : Self) (d e : ℕ) → d ≤ e → floor x d ≤ floor x e };

    // steps that serve are at least the floor in any d consecutive whole ticks
    ghost floor_holds: { (x : Self) (whole : ℕ) (ts : List ℕ) (u d : ℕ) → serves x whole ts → u + d ≤ whole → floor x d ≤ count_in u d ts };
}

/// At least `steps` steps in any `within` consecutive whole ticks.
#[derive(Clone, Copy, Debug)]
pub struct Paced {
    /// The fewest steps in so many ticks.
    pub steps: u32,
    /// The number of ticks, at least 1.
    pub within: u32,
    ghost positive: { 1 ≤ within },
}

impl Paced {
    /// The floor of an actor that makes at least `steps` steps in any `within` consecutive whole ticks, 1 or more.
    pub fn new(steps: u32, within: u32) -> Paced
        requires { 1 ≤ within }
        ensures steps { result.steps ≡ steps }
        ensures within { result.within ≡ within }
        ensures floor { (d : ℕ) → ⟦<Paced as ServiceBound>⟧.floor result d ≡ steps * (d / within) }
        ensures serves { (whole : ℕ) (ts : List ℕ) → ⟦<Paced as ServiceBound>⟧.serves result whole ts ↔ HoldAtLeast steps within whole ts }
    {
        Paced { steps, within }
    }
}

impl ServiceBound for Paced {
    ghost floor = { λ x d. x.steps * (d / x.within) };

    ghost serves = { λ x whole ts. HoldAtLeast x.steps x.within whole ts };

    fn at_least(&self, d: u32) -> u64 {
        self.steps as u64 * (d / self.within) as u64
    }

    ghost floor_zero = { λ x. pace_zero x.steps x.within };

    ghost floor_monotone = { λ x d e h. pace_mono x.steps x.within d e x.positive h };

    ghost floor_holds = { λ x whole ts u d h k. pace_holds x.steps x.within whole ts h u d k };
}

/// The visits of one bus by an actor that keeps a pace and visits the buses of a list in turn, again and again.
#[derive(Drop)]
pub struct Visits<'a> {
    pace: Paced,
    visits: &'a [usize],
    bus: usize,
    ghost some: { 1 ≤ length visits.now },
    ghost few: { length visits.now ≤ MOST_PLACES },
}

impl<'a> Visits<'a> {
    /// The floor of the visits of `bus` where steps at the pace `pace` visit the buses of `visits`, 1 to
    /// [`MOST_PLACES`](crate::MOST_PLACES) places, in turn from any place of it.
    pub fn new(pace: Paced, visits: &'a [usize], bus: usize) -> Visits<'a>
        requires some { 1 ≤ length visits.now }
        requires few { length visits.now ≤ MOST_PLACES }
        ensures floor { (d : ℕ) → ⟦<Visits<'a> as ServiceBound>⟧.floor result d ≡ fewest_visits visits.now bus (pace.steps * (d / pace.within)) }
        ensures serves { (whole : ℕ) (ts : List ℕ) → ⟦<Visits<'a> as ServiceBound>⟧.serves result whole ts
            ↔ VisitsInTurn visits.now bus pace.steps pace.within whole ts }
    {
        Visits { pace, visits, bus }
    }
}

impl<'a> ServiceBound for Visits<'a> {
    ghost floor = { λ x d. fewest_visits x.visits.now x.bus (x.pace.steps * (d / x.pace.within)) };

    ghost serves = { λ x whole ts. VisitsInTurn x.visits.now x.bus x.pace.steps x.pace.within whole ts };

    fn at_least(&self, d: u32) -> u64 {
        fewest(self.visits, self.bus, self.pace.at_least(d))
    }

    ghost floor_zero = { λ x. fewest_visits_zero x.visits.now x.bus x.pace.steps x.pace.within };

    ghost floor_monotone = { λ x d e h. fewest_visits_mono x.visits.now x.bus x.pace.steps x.pace.within d e x.pace.positive h };

    ghost floor_holds = { λ x whole ts u d h k. in_turn_holds x.visits.now x.bus x.some x.pace.steps x.pace.within whole ts h u d k };
}

/// 1 where a place of the list is the bus, else 0.
fn visit(visits: &[usize], bus: usize, place: usize) -> u64
    requires { place < length visits.now }
    ensures value { result ≡ is_at visits.now bus place }
    ensures small { result ≤ 1 }
{
    if visits[place] == bus { 1 } else { 0 }
}

/// How many of the first k steps visit the bus.
#[tactic(auto, unfolding(crate::specs::Rounds::among))]
fn visits_in_front(visits: &[usize], bus: usize, k: usize) -> u64
    requires few { length visits.now ≤ MOST_PLACES }
    requires round { k ≤ length visits.now }
    ensures value { result ≡ among (λ i. is_at visits.now bus i) (length visits.now) 0 k }
    ensures small { result ≤ k }
{
    let mut count: u64 = 0;
    for i in 0..k {
        count += visit(visits, bus, i);
    }
    count
}

/// The fewest visits of the bus among so many steps: whole rounds, and the rest of the last.
fn fewest(visits: &[usize], bus: usize, steps: u64) -> u64
    requires some { 1 ≤ length visits.now }
    requires few { length visits.now ≤ MOST_PLACES }
    requires steps { steps < 2 ^ 52 }
    ensures { result ≡ fewest_visits visits.now bus steps }
{
    let len = visits.len();
    let rounds = steps / len as u64;
    let rest = (steps % len as u64) as usize;
    let round = visits_in_front(visits, bus, len);
    if rest == 0 {
        return rounds * round;
    }
    let least = fewest_in_rest(visits, bus, rest);
    rounds * round + least
}

/// The fewest visits of the bus among less steps than the list has, at least one: a window of so many steps slides
/// along it, first while it ends in the list, then while it goes on at the front.
fn fewest_in_rest(visits: &[usize], bus: usize, rest: usize) -> u64
    requires some { 1 ≤ rest }
    requires few { length visits.now ≤ MOST_PLACES }
    requires rest { rest < length visits.now }
    ensures value { result ≡ fewest_visits visits.now bus rest }
    ensures small { result ≤ MOST_PLACES }
{
    let last = visits.len() - rest;
    let mut here = visits_in_front(visits, bus, rest);
    let mut least = here;
    for n in 0..last {
        here = here + visit(visits, bus, n + rest) - visit(visits, bus, n);
        least = least.min(here);
    }
    for front in 0..rest - 1 {
        here = here + visit(visits, bus, front) - visit(visits, bus, last + front);
        least = least.min(here);
    }
    least
}
