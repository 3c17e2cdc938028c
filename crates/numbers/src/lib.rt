// The numbers of a layout: groups of seven bits, low group first, in the shortest form.
#![tactic(auto)]

ghost use Rattle.std.specs.Prelude.{◌≡◌, ◌+◌, ◌*◌, ◌^◌, ◌<◌};
ghost use Rattle.numbers.specs.Number.{last_group, number_at, read_refusal, read_value, read_next};
ghost use Rattle.numbers.specs.Inner.Groups.{scaled};

use answers::{Refusal, refused_number};

// A number that was read, with the offset after it.
#[derive(Clone, Copy)]
pub struct Number {
    pub value: u32,
    pub next: usize,
}

// The weight of a fifth group, 128 to the 4th.
const FIFTH_WEIGHT: u32 = 268435456;

// The last byte x of a number, over the value of the groups before it.
#[tactic(auto, unfolding(crate::specs::Number::last_group, crate::specs::Inner::Groups::scaled))]
fn last_group(first: bool, x: u8, low: u32, weight: u32, next: usize) -> Result<Number, Refusal>
    requires { low + weight * x < 2 ^ 32 }
    ensures { result ≡ scaled low weight (last_group first x next) }
{
    if x == 0 && !first {
        return Err(Refusal::BadForm);
    }
    Ok(Number {
        value: low + weight * x as u32,
        next,
    })
}

// The number that begins at an offset.
#[tactic(auto, using(crate::specs::Inner::Groups::fifth_high))]
pub fn read_number(bytes: &[u8], at: usize) -> Result<Number, Refusal>
    ensures { result ≡ number_at bytes.now at }
{
    let mut low: u32 = 0;
    let mut weight: u32 = 1;
    for i in at..bytes.len() {
        let x = bytes[i];
        if weight == FIFTH_WEIGHT && 15 < x {
            return Err(Refusal::BadForm);
        }
        if x < 128 {
            return last_group(i == at, x, low, weight, i + 1);
        }
        low += weight * (x as u32 - 128);
        weight *= 128;
    }
    Err(Refusal::Missing)
}

// The number of the refusal, 0 where nothing is refused.
#[tactic(auto, using(crate::specs::Inner::ReadAnswers::read_refused))]
pub fn read_refusal(number: Result<Number, Refusal>) -> u32
    ensures { result ≡ read_refusal number }
{
    refused_number(number)
}

// The number that was read, 0 where it is refused.
pub fn read_value(number: Result<Number, Refusal>) -> u32
    ensures { result ≡ read_value number }
{
    match number {
        Ok(number) => number.value,
        Err(_) => 0,
    }
}

// The offset after the number, 0 where it is refused.
pub fn read_next(number: Result<Number, Refusal>) -> usize
    ensures { result ≡ read_next number }
{
    match number {
        Ok(number) => number.next,
        Err(_) => 0,
    }
}
