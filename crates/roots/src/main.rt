// Runs the root and the segment count over the list on standard input: a line for each operand with its bits, those of its root, and its count,
// all in hexadecimal; 8000 is added to a count that was held back. tools/roots.c makes the list with the machine's own square root. A line that
// differs is written out. A million lines are read at most, and no part of one.
#![tactic(auto)]

ghost use Rattle.std.specs.Prelude.{◌<◌};

use common::read_record;
use float::SegmentCount;
use std::io;
use std::io::BufReader;
use std::num::{f32_from_bits_with_nan, f32_to_bits_with_nan};

const MOST_LINES: u32 = 1_000_000;

// The bytes of a line: 8, 8 and 4 digits, with one byte behind each number.
const LINE: usize = 23;

// What a line says: an operand, its root, and its count.
#[derive(Clone, Copy)]
struct Line {
    operand: f32,
    root: f32,
    answer: SegmentCount,
}

// Whether a line's root, its count and whether that was held back are what the library gives: three answers, none beside a value.
#[derive(Clone, Copy)]
struct Found {
    root: bool,
    count: bool,
    held: bool,
}

// How many lines there are, and of how many the root, the count and whether that was held back are what the library gives.
#[derive(Clone, Copy, Default)]
struct Tally {
    lines: u64,
    roots: u64,
    counts: u64,
    held: u64,
}

// What a letter says; one that is no digit says 0.
fn digit(letter: u8) -> u32
    ensures { result < 16 }
{
    if b'0' <= letter && letter <= b'9' {
        return u32::from(letter - b'0');
    }
    if b'a' <= letter && letter <= b'f' {
        return u32::from(letter - b'a' + 10);
    }
    0
}

fn hexadecimal(digits: &[u8]) -> u32 {
    let mut number = 0;
    for letter in digits {
        number = number % 0x1000_0000 * 16 + digit(*letter);
    }
    number
}

impl Line {
    // Every NaN is one here.
    fn parse(text: &[u8; LINE]) -> Line {
        let told = hexadecimal(&text[18..22]);
        Line {
            operand: f32_from_bits_with_nan(hexadecimal(&text[..8])),
            root: f32_from_bits_with_nan(hexadecimal(&text[9..17])),
            answer: SegmentCount {
                count: told % 0x8000,
                held: 0x8000 <= told,
            },
        }
    }

    fn compare(self) -> Found {
        let root = root::sqrt(self.operand);
        let answer = count::segment_count(self.operand);
        Found {
            root: f32_to_bits_with_nan(root) == f32_to_bits_with_nan(self.root),
            count: answer.count == self.answer.count,
            held: answer.held == self.answer.held,
        }
    }
}

impl Found {
    fn all(self) -> bool {
        self.root && self.count && self.held
    }
}

impl Tally {
    fn add(&mut self, found: Found) {
        self.lines = self.lines.saturating_add(1);
        self.roots = self.roots.saturating_add(u64::from(found.root));
        self.counts = self.counts.saturating_add(u64::from(found.count));
        self.held = self.held.saturating_add(u64::from(found.held));
    }
}

fn main(rt: HostRuntime) -> io::Result<()> {
    let mut input = BufReader::new(rt.alloc(), rt.reader())?;
    let mut text = [0; LINE];
    let mut tally = Tally::default();
    for _ in 0..MOST_LINES {
        if !read_record(&mut input, &mut text)? {
            break;
        }
        let found = Line::parse(&text).compare();
        if !found.all() {
            rt.write_all(&text)?;
        }
        tally.add(found);
    }
    println!(rt; "{} operands", tally.lines)?;
    println!(rt; "{} roots as the machine's", tally.roots)?;
    println!(rt; "{} segment counts as the source's", tally.counts)?;
    println!(rt; "{} held back or not, as the request has it", tally.held)
}
