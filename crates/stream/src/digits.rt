// The bytes of a field, as they come (specs/Progress.antt): what a VarInt announced, what it comes to, and the field after it.
ghost use Rattle.std.specs.Prelude.{◌≡◌, ◌+◌, ◌-◌, ◌≤◌, ◌<◌};
ghost use Rattle.stream.specs.Parts.{MAX_PARTS};
ghost use Rattle.stream.specs.Progress as P;

use super::progress::{MAX_PARTS, Progress, Step, is_end, is_number, next, refused};
use format::Refusal;

// k bytes further in a field.
fn moved(f: Progress, k: u64) -> Progress
    requires { f.at + k < 18446744073709551616 }
    ensures { result ≡ P.moved f k }
{
    Progress {
        need: f.need.saturating_sub(k),
        at: f.at + k,
        ..f
    }
}

// k bytes of a field that is no VarInt.
pub(crate) fn passed(f: Progress, k: u64) -> Step
    requires { f.at + k < 18446744073709551616 }
    ensures { result ≡ P.passed f k }
{
    let g = moved(f, k);
    if f.need <= k {
        return next(g, 0);
    }
    Ok(g)
}

fn width_of(x: u64) -> u64
    ensures { result ≡ P.width_of x }
{
    match x {
        253 => 2,
        254 => 4,
        _ => 8,
    }
}

// A VarInt's bytes, of which it announced so many, as a number.
#[tactic(auto, unfolding(crate::specs::Progress::scaled))]
fn scaled(width: u64, value: u64) -> u64
    ensures { result ≡ P.scaled width value }
{
    match width {
        2 => value / 281474976710656,
        4 => value / 4294967296,
        _ => value,
    }
}

// The least number that takes so many bytes.
#[tactic(auto, unfolding(crate::specs::Progress::least))]
fn least(width: u64) -> u64
    ensures { result ≡ P.least width }
{
    match width {
        2 => 253,
        4 => 65536,
        _ => 4294967296,
    }
}

fn numbered(f: Progress, width: u64, value: u64) -> Step
    ensures { result ≡ P.numbered f width value }
{
    let v = scaled(width, value);
    if v < least(width) {
        return refused(Refusal::LongVarint, f.start);
    }
    next(f, v)
}

fn announce(f: Progress, x: u64) -> Progress
    requires { f.at + 1 < 18446744073709551616 }
    ensures { result ≡ P.announce f x }
{
    let width = width_of(x);
    Progress {
        need: width,
        width,
        value: 0,
        at: f.at + 1,
        ..f
    }
}

fn shifted(f: Progress, x: u64) -> Progress
    requires { (f.at + 1 < 18446744073709551616) × (x < 256) }
    ensures { result ≡ P.shifted f x }
{
    Progress {
        need: f.need.saturating_sub(1),
        value: f.value / 256 + x * 72057594037927936,
        at: f.at + 1,
        ..f
    }
}

fn first_digit(f: Progress, x: u64) -> Step
    requires { f.at + 1 < 18446744073709551616 }
    ensures { result ≡ P.first_digit f x }
{
    if x < 253 {
        return next(moved(f, 1), x);
    }
    Ok(announce(f, x))
}

fn later_digit(f: Progress, x: u64) -> Step
    requires { (f.at + 1 < 18446744073709551616) × (x < 256) }
    ensures { result ≡ P.later_digit f x }
{
    let g = shifted(f, x);
    if f.need <= 1 {
        return numbered(g, f.width, g.value);
    }
    Ok(g)
}

// A byte of a VarInt.
fn digit(f: Progress, x: u64) -> Step
    requires { (f.at + 1 < 18446744073709551616) × (x < 256) }
    ensures { result ≡ P.digit f x }
{
    if f.width == 0 {
        return first_digit(f, x);
    }
    later_digit(f, x)
}

// The byte x, and with it k - 1 bytes more of a field that is no VarInt.
pub(crate) fn taken(f: Progress, x: u64, k: u64) -> Step
    requires { (x < 256) × (k ≤ MAX_PARTS) }
    ensures { result ≡ P.taken MAX_PARTS f x k }
{
    if MAX_PARTS <= f.at {
        return refused(Refusal::TooLong, 0);
    }
    if is_end(f.stage) {
        return refused(Refusal::Extra, f.at);
    }
    if is_number(f.stage) {
        return digit(f, x);
    }
    passed(f, k)
}
