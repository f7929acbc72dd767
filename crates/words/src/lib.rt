// Operations on words that hold f32 bits (document 01, module 1), and the tests of a parameter's
// words. Every function has its result for every word, NaN patterns included.
#![tactic(auto, using(crate::specs::Laws::finite_float, crate::specs::Laws::nan_above, crate::specs::Laws::added_nan, crate::specs::Laws::subtracted_nan, crate::specs::Laws::multiplied_nan, crate::specs::Laws::left_number, crate::specs::Laws::right_number), unfolding(crate::specs::Operations::added, crate::specs::Operations::subtracted, crate::specs::Operations::multiplied, crate::specs::Operations::float_of, crate::specs::Operations::word_of, crate::specs::Operations::is_less, crate::specs::Operations::chosen, crate::specs::Operations::lesser, crate::specs::Operations::greater, crate::specs::Operations::negated, crate::specs::Operations::absolute, crate::specs::Operations::wrapping_difference, crate::specs::Operations::operate, crate::specs::Operations::is_finite, crate::specs::Operations::within, crate::specs::Operations::valid_span, crate::specs::Operations::in_range, crate::specs::Operations::span_is_valid))]

ghost use Rattle.std.specs.Prelude.{◌≡◌, ◌||◌};
ghost use Rattle.std.specs.Float.Ieee.Scale.{finite};
ghost use Rattle.words.specs.Operations.{word_of, added, subtracted, multiplied, is_nan, is_less, chosen, lesser, greater, negated, absolute, wrapping_difference, operate, is_finite, within, valid_span, in_range, span_is_valid};

// Every NaN pattern is read as the one NaN.
use std::num::f32_from_bits_with_nan as float_of;

const SIGN: u32 = 0x8000_0000;

const INFINITY: u32 = 0x7f80_0000;

const NAN: u32 = 0x7fc0_0000;

fn is_nan(word: u32) -> bool
    ensures { result ≡ is_nan word }
{
    INFINITY < word % SIGN
}

// Asked before an operation, not left to its result: both runs do this for most nodes and steps. With NaN words read as floats the graph run of 4,302 nodes took
// 1.33 of the Rust's time, and so 1.16 to 1.23 (bench/run, before `value_of` of graph_run was one match); at most 1.2 is wanted.
fn has_nan(lhs: u32, rhs: u32) -> bool
    ensures { result ≡ (is_nan lhs || is_nan rhs) }
{
    is_nan(lhs) || is_nan(rhs)
}

// A processor's NaN has whatever sign and payload; ours has one word.
#[tactic(auto, using(crate::specs::Laws::unequal_nan, crate::specs::Laws::equal_number), unfolding(crate::specs::Operations::word_of))]
fn to_word(x: f32) -> u32
    ensures { result ≡ word_of x }
{
    if x != x {
        return NAN;
    }
    f32::to_bits(x)
}

pub fn add(lhs: u32, rhs: u32) -> u32
    ensures { result ≡ added lhs rhs }
{
    if has_nan(lhs, rhs) {
        return NAN;
    }
    to_word(f32::from_bits(lhs) + f32::from_bits(rhs))
}

pub fn sub(lhs: u32, rhs: u32) -> u32
    ensures { result ≡ subtracted lhs rhs }
{
    if has_nan(lhs, rhs) {
        return NAN;
    }
    to_word(f32::from_bits(lhs) - f32::from_bits(rhs))
}

pub fn mul(lhs: u32, rhs: u32) -> u32
    ensures { result ≡ multiplied lhs rhs }
{
    if has_nan(lhs, rhs) {
        return NAN;
    }
    to_word(f32::from_bits(lhs) * f32::from_bits(rhs))
}

fn is_less(lhs: u32, rhs: u32) -> bool
    ensures { result ≡ is_less lhs rhs }
{
    float_of(lhs) < float_of(rhs)
}

// What min and max share; `leads`: lhs is less, or greater. An operand's own bits are handed on.
fn choose(leads: bool, lhs: u32, rhs: u32) -> u32
    ensures { result ≡ chosen leads lhs rhs }
{
    if is_nan(lhs) {
        return rhs;
    }
    if is_nan(rhs) {
        return lhs;
    }
    if leads { lhs } else { rhs }
}

pub fn min(lhs: u32, rhs: u32) -> u32
    ensures { result ≡ lesser lhs rhs }
{
    choose(is_less(lhs, rhs), lhs, rhs)
}

pub fn max(lhs: u32, rhs: u32) -> u32
    ensures { result ≡ greater lhs rhs }
{
    choose(is_less(rhs, lhs), lhs, rhs)
}

// The sign by arithmetic on words, here and in abs: the definitions `negated` and `absolute`, which negated_float and absolute_float speak of.
pub fn neg(word: u32) -> u32
    ensures { result ≡ negated word }
{
    if word < SIGN {
        word + SIGN
    } else {
        word - SIGN
    }
}

pub fn abs(word: u32) -> u32
    ensures { result ≡ absolute word }
{
    word % SIGN
}

pub fn integer_sub(lhs: u32, rhs: u32) -> u32
    ensures { result ≡ wrapping_difference lhs rhs }
{
    lhs.wrapping_sub(rhs)
}

// The code is a word of a node's record (document 01, "What crosses the boundary"); the enum of kinds is of the crate `block`, which uses this one.
pub fn operate(code: u32, lhs: u32, rhs: u32) -> u32
    ensures { result ≡ operate code lhs rhs }
{
    match code {
        5 => add(lhs, rhs),
        6 => sub(lhs, rhs),
        7 => mul(lhs, rhs),
        8 => min(lhs, rhs),
        9 => max(lhs, rhs),
        10 => integer_sub(lhs, rhs),
        12 => neg(lhs),
        13 => abs(lhs),
        _ => 0,
    }
}

// Between the infinities, where no NaN is. By comparisons: std's `is_finite` subtracts, which raises the processor's flag of an invalid operation at an infinity.
fn is_finite_float(x: f32) -> bool
    ensures { result ≡ finite x }
{
    f32::NEG_INFINITY < x && x < f32::INFINITY
}

pub fn is_finite(word: u32) -> bool
    ensures { result ≡ is_finite word }
{
    is_finite_float(float_of(word))
}

fn is_within(min: f32, max: f32, value: f32) -> bool
    ensures { result ≡ within min max value }
{
    is_finite_float(value) && min <= value && value <= max
}

fn is_valid_span(min: f32, max: f32, default: f32) -> bool
    ensures { result ≡ valid_span min max default }
{
    is_finite_float(min)
        && is_finite_float(max)
        && !(min >= max)
        && is_finite_float(max - min)
        && is_within(min, max, default)
}

pub fn in_range(min: u32, max: u32, value: u32) -> bool
    ensures { result ≡ in_range min max value }
{
    is_within(float_of(min), float_of(max), float_of(value))
}

pub fn span_is_valid(min: u32, max: u32, default: u32) -> bool
    ensures { result ≡ span_is_valid min max default }
{
    is_valid_span(float_of(min), float_of(max), float_of(default))
}
