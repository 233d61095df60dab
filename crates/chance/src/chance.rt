//! A generator, and what is drawn from it.

ghost use Rattle.std.specs.Prelude.{◌≡◌, ℕ, ◌<◌, pos, ◌+ℤ◌, ◌≤ℤ◌, Decides};
ghost use Rattle.chance.specs.Drawn.{next, shown, width, number_below, number_between, state_below, state_between};

use std::marker::Model;

/// A linear congruential generator, seen as its state.
#[derive(Drop)]
pub struct Chance {
    state: u64,
}

impl Model for Chance {
    ghost Value = { ℕ };

    ghost view = { λ chance. chance.state };
}

// How many numbers there are from `low` to `high`.
fn width(low: i32, high: i32) -> u64
    ensures { result ≡ width low high }
{
    if high < low {
        0
    } else {
        (i64::from(high) - i64::from(low)) as u64 + 1
    }
}

// The number so many steps above `low`.
fn above(low: i32, steps: u64, high: i32) -> i32
    requires { (low +ℤ pos steps) ≤ℤ high }
    ensures { result ≡ low +ℤ pos steps }
{
    (i64::from(low) + steps as i64) as i32
}

impl Chance {
    pub fn new(seed: u64) -> Chance
        ensures { result ≡ seed }
    {
        Chance { state: seed }
    }

    // The high bits of the next state, since its low ones repeat soon.
    fn draw(&mut self) -> u64
        ensures number { result ≡ shown (next self.old) }
        ensures state { self.new ≡ next self.old }
    {
        self.state = self
            .state
            .wrapping_mul(6_364_136_223_846_793_005)
            .wrapping_add(1_442_695_040_888_963_407);
        self.state >> 33
    }

    /// A number below `count`, or 0 where there is none; then nothing is drawn.
    pub fn below(&mut self, count: u64) -> u64
        ensures number { result ≡ number_below count self.old }
        ensures state { self.new ≡ state_below count self.old }
        ensures within { 0 < count → result < count }
    {
        if count == 0 {
            return 0;
        }
        self.draw() % count
    }

    /// A place in a list of this length.
    pub fn place(&mut self, length: usize) -> usize
        ensures number { result ≡ number_below length self.old }
        ensures state { self.new ≡ state_below length self.old }
        ensures within { 0 < length → result < length }
    {
        self.below(length as u64) as usize
    }

    /// A number from `low` to `high`, both included; `low` where there is none.
    pub fn between(&mut self, low: i32, high: i32) -> i32
        ensures number { result ≡ number_between low high self.old }
        ensures state { self.new ≡ state_between low high self.old }
        ensures least { low ≤ℤ result }
        ensures most { low ≤ℤ high → result ≤ℤ high }
    {
        let steps = self.below(width(low, high));
        if low <= high {
            above(low, steps, high)
        } else {
            low
        }
    }

    /// True once in so many times.
    pub fn once_in(&mut self, times: u64) -> bool
        ensures answer { Decides result (number_below times self.old ≡ 0) }
        ensures state { self.new ≡ state_below times self.old }
    {
        self.below(times) == 0
    }
}
