// What the programs read and print with, and how they compare words.
#![tactic(auto)]

ghost use Rattle.std.specs.Prelude.{◌≡◌, ◌+◌, ◌≤◌, ◌<◌, eqb, length, take, drop, None};
ghost use Rattle.std.specs.List.{position_or_len};
ghost use Rattle.std.specs.Io.KnownBytes.{Consumes, IsAtEnd};
ghost use Rattle.table.specs.Regions.{altered};
ghost use Rattle.report.specs.Counts.{IsPrefixLen};
ghost use Rattle.report.specs.Digits.{with_digit, number, is_decimal};

use arrayvec::ArrayString;
use std::env::FillError;
use std::fmt::{Display, Write};
use std::io::Read;
use std::rt::{Env, Files};
use std::{fs, io, str};

// How many bytes a reader gave, and the error that stopped it before the bytes were full or the reader ended.
// It is no Result, which would lose the count of what came before the error.
#[derive(Drop)]
pub struct Full {
    pub bytes: usize,
    pub failed: Option<io::Error>,
}

// Reads until buf is full, the reader ends or a read fails. A read that a signal interrupts is one that failed.
pub fn read_full<R: Read>(reader: &mut R, buf: &mut [u8]) -> Full
    ensures front { IsPrefixLen result.bytes buf.new }
    ensures bytes { Consumes (R.remaining reader.old) (R.remaining reader.new) (take result.bytes buf.new) }
    ensures end { result.failed ≡ None → result.bytes < length buf.new → IsAtEnd (R.remaining reader.new) }
{
    let mut done = 0;
    while done < buf.len() {
        match reader.read(&mut buf[done..]) {
            Ok(0) => break,
            Ok(n) => done += n,
            Err(e) => {
                return Full {
                    bytes: done,
                    failed: Some(e),
                };
            }
        }
    }
    Full {
        bytes: done,
        failed: None,
    }
}

// The error's text without the number that the library puts behind the system's.
fn without_number(text: &str) -> &str {
    text.split_once(" (os error ")
        .map_or(text, |(front, _)| front)
}

// A line on standard error: what failed, a colon and why.
fn fail(rt: &impl Eprint, what: &str, why: &io::Error) {
    let mut text = ArrayString::<128>::new();
    let _ = write!(text, "{why}");
    let _ = eprintln!(rt; "{what}: {}", without_number(text.as_str()));
}

// Reads standard input, as far as it has room. That it failed and did not end is said on standard error: a failing read looks
// like the end.
pub fn input(rt: &(impl Input + Eprint), buf: &mut [u8]) -> usize
    ensures { IsPrefixLen result buf.new }
{
    let read = read_full(&mut rt.reader(), buf);
    if let Some(why) = &read.failed {
        fail(rt, "standard input", why);
    }
    read.bytes
}

// Writes to standard output: whether all could be written. Where not, standard error says so.
pub fn output(rt: &(impl Print + Eprint), s: &[u8]) -> bool {
    rt.write_all(s)
        .inspect_err(|why| fail(rt, "standard output", why))
        .is_ok()
}

pub fn text(rt: &impl Print, s: &[u8]) {
    let _ = rt.write_all(s);
}

// A text and the number after it.
pub fn field(rt: &impl Print, name: &[u8], n: impl Display + Drop) {
    text(rt, name);
    let _ = print!(rt; "{n}");
}

// Words, a blank before each.
pub fn words(rt: &impl Print, t: &[u32]) {
    for &x in t {
        field(rt, b" ", x);
    }
}

// In how many places the words of the two differ.
pub fn differ(a: &[u32], b: &[u32]) -> usize
    ensures { result ≡ altered a.now b.now }
{
    a.iter().zip(b).filter(|(x, y)| x != y).count()
}

// Reads a file, as far as it has room: nothing where it cannot be opened. It never fails, since a program prints what it read.
pub fn load(rt: &impl Files, path: &[u8], buf: &mut [u8]) -> usize
    ensures { IsPrefixLen result buf.new }
{
    let Ok(name) = str::from_utf8(path) else {
        return 0;
    };
    let Ok(mut file) = fs::open(rt, name) else {
        return 0;
    };
    read_full(&mut file, buf).bytes
}

// Puts argument i at the start of buf, and gives its length: 0 where it is missing or longer than buf, as of an empty one, for
// programs that take all of these as no number.
pub fn argument(rt: &impl Env, i: usize, buf: &mut [u8]) -> usize
    ensures { IsPrefixLen result buf.new }
{
    rt.arg(i, buf).unwrap_or(0)
}

// Whether there is an argument i. Argument 0 is the program's name.
fn is_given(rt: &impl Env, i: usize) -> bool {
    !matches!(rt.arg(i, &mut []), Err(FillError::NotPresent))
}

// How many arguments there are, the program's name among them.
pub fn argument_count(rt: &impl Env) -> usize {
    (0..usize::MAX).take_while(|i| is_given(rt, *i)).count()
}

// The first place from `at` on where b stands, or the end.
pub fn find(s: &[u8], at: usize, b: u8) -> usize
    requires { at ≤ length s.now }
    ensures within { (at ≤ result) × (result ≤ length s.now) }
    ensures first { result ≡ at + position_or_len (λ x. eqb x b) (drop at s.now) }
{
    let place = s[at..].iter().position(|x| *x == b);
    at + place.unwrap_or(s.len() - at)
}

fn digit(v: u64, b: u8) -> u64
    ensures { result ≡ with_digit v b }
{
    if v < 1_000_000_000_000 && b.is_ascii_digit() {
        v * 10 + u64::from(b - b'0')
    } else {
        u64::MAX
    }
}

// The number that the digits are; the largest where there are more than thirteen, or another byte.
pub fn number(s: &[u8]) -> u64
    ensures { result ≡ number s.now }
{
    s.iter().fold(0, |v, b| digit(v, *b))
}

// Whether they are a decimal number: digits alone, and at least one.
pub fn is_decimal(s: &[u8]) -> bool
    ensures { result ≡ is_decimal s.now }
{
    !s.is_empty() && s.iter().all(|b| b.is_ascii_digit())
}

// A number as a word: 0 where it is too large for one.
pub fn narrow(n: u64) -> u32 {
    u32::try_from(n).unwrap_or(0)
}

// A number, and where it ends.
#[derive(Clone, Copy)]
pub struct Token {
    pub number: u64,
    pub end: usize,
}

// The number behind the blank at `at`, 0 where nothing is there.
pub fn next(s: &[u8], at: usize) -> Token {
    if s.len() <= at {
        return Token { number: 0, end: at };
    }
    let from = at + 1;
    let end = find(s, from, b' ');
    Token {
        number: number(&s[from..end]),
        end,
    }
}
