// BITWOPDMAREG, SHIFTDMAREG, CMPDMAREG: the numbers.
ghost use Rattle.std.specs.Prelude.{◌≡◌, get_or};
ghost use Rattle.step.specs.Scalar.{bitwise_of, shift_of, compare_of, computed, operand_b, scalar};

use word::{Operation, Scalar};

// Here and below a mode is any number, as `computed` says; rule 4 was judged before.
fn bitwise(mode: u32, x: u32, y: u32) -> u32
    ensures { result ≡ bitwise_of mode x y }
{
    if mode == 0 {
        return x & y;
    }
    if mode == 1 {
        return x | y;
    }
    x ^ y
}

fn shift(mode: u32, x: u32, y: u32) -> u32
    ensures { result ≡ shift_of mode x y }
{
    if mode == 0 {
        return x << (y % 32);
    }
    x >> (y % 32)
}

fn compare(mode: u32, x: u32, y: u32) -> u32
    ensures { result ≡ compare_of mode x y }
{
    if mode == 0 {
        return u32::from(y < x);
    }
    if mode == 1 {
        return u32::from(x < y);
    }
    u32::from(x == y)
}

fn compute(op: Operation, mode: u32, x: u32, y: u32) -> u32
    ensures { result ≡ computed op mode x y }
{
    match op {
        Operation::Bitwise => bitwise(mode, x, y),
        Operation::Shift => shift(mode, x, y),
        Operation::Compare => compare(mode, x, y),
    }
}

// A register past the end is 0.
fn value_at(registers: &[u32], i: usize) -> u32
    ensures { result ≡ get_or registers.now i 0 }
{
    registers.get(i).copied().unwrap_or(0)
}

fn operand_b(thread: u8, s: Scalar, registers: &[u32]) -> u32
    ensures { result ≡ operand_b thread s registers.now }
{
    if s.constant {
        return s.b as u32;
    }
    value_at(registers, cells::register_at(thread, s.b) as usize)
}

pub fn scalar_unit(thread: u8, s: Scalar, registers: &mut [u32])
    ensures { registers.new ≡ scalar thread s registers.old }
{
    let y = operand_b(thread, s, registers);
    let x = value_at(registers, cells::register_at(thread, s.a) as usize);
    let k = cells::register_at(thread, s.result) as usize;
    if k < registers.len() {
        registers[k] = compute(s.op, s.mode, x, y);
    }
}
