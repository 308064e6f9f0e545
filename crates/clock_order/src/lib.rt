// Which of two clock readings is the earlier one, around the clock's turn.
#![tactic(auto)]

ghost use Rattle.std.specs.Prelude.{◌≡◌};
ghost use Rattle.format.specs.Added.{ticks};
ghost use Rattle.clock_order.specs.Clock.{forward};
ghost use Rattle.clock_order.specs.Order.{clock_order, order_number};

// A full turn of the clock, in ticks, and half of it.
const TURN: u64 = 2576980377600;

const HALF: u64 = TURN / 2;

// The first reading against the second, with the number that C gets; opposite is half a turn away.
#[derive(Clone, Copy)]
pub enum ClockOrder {
    Same = 0,
    Earlier = 1,
    Later = 2,
    Opposite = 3,
}

impl ClockOrder {
    // The order's number.
    #[tactic(auto, unfolding(crate::specs::Order::order_number))]
    pub fn number(self) -> u32
        ensures { result ≡ order_number self }
    {
        self as u32
    }
}

// A clock's ticks, of its 33 and its 9 low bits.
fn ticks_of(base: u64, ext: u16) -> u64
    ensures { result ≡ ticks base ext }
{
    300 * (base % 8589934592) + (ext % 512) as u64
}

// How many ticks it takes to go forward from one to the other; full turns do not count.
fn forward_ticks(from: u64, to: u64) -> u64
    ensures { result ≡ forward «from» «to» }
{
    let start = from % TURN;
    let goal = to % TURN;
    if start <= goal {
        goal - start
    } else {
        goal + (TURN - start)
    }
}

// The first reading against the second, by the way forward between their ticks.
pub fn clock_order(base: u64, ext: u16, other_base: u64, other_ext: u16) -> ClockOrder
    ensures { result ≡ clock_order base ext other_base other_ext }
{
    let first = ticks_of(base, ext);
    let second = ticks_of(other_base, other_ext);
    let way = forward_ticks(first, second);
    let earlier = way < HALF;
    if way == 0 {
        ClockOrder::Same
    } else if earlier {
        ClockOrder::Earlier
    } else if way == HALF {
        ClockOrder::Opposite
    } else {
        ClockOrder::Later
    }
}
