// The print program: reads a job table from standard input and prints its schedule, or why there is none.
#![tactic(auto)]

ghost use Rattle.std.specs.Prelude.{◌<◌, ◌≤◌, length};

use argilosco::schedule::argilosco_schedule;
use std::io;
use std::io::Read;

// The program's budget.
const BUDGET: u32 = 100000;

// The most bytes that are read: any table over 49,152 bytes is refused by 1.
const MOST: usize = 65536;

// Reads until the table is full, the input ends or a read fails, and answers how many bytes came.
fn read_table(input: &mut impl Read, table: &mut [u8]) -> usize
    ensures { result ≤ length table.new }
{
    let mut n = 0;
    while n < table.len() {
        match input.read(&mut table[n..]) {
            Ok(0) | Err(_) => break,
            Ok(more) => n += more,
        }
    }
    n
}

// Writes the line `opened N`.
fn opened_line(rt: &impl Print, n: u32) -> io::Result<()> {
    println!(rt; "opened {n}")
}

// Writes the line `job start end` of the slot at a place.
fn slot_line(rt: &impl Print, slots: &[u8; 576], place: usize) -> io::Result<()>
    requires { place < 48 }
{
    let at = 12 * place;
    let job = slots[at + 1];
    let start = u16::from_le_bytes([slots[at + 2], slots[at + 3]]);
    let end = u16::from_le_bytes([slots[at + 4], slots[at + 5]]);
    println!(rt; "{job} {start} {end}")
}

// Writes a line for each of the slots that fill so many bytes.
fn slot_lines(rt: &impl Print, slots: &[u8; 576], written: u32) -> io::Result<()> {
    for place in 0..48 {
        if 12 * (place as u32) < written {
            slot_line(rt, slots, place)?;
        }
    }
    Ok(())
}

fn main(rt: HostRuntime) -> io::Result<()> {
    let mut table = [0; MOST];
    let n = read_table(&mut rt.stdin(), &mut table);
    let mut slots = [0; 576];
    let answer = argilosco_schedule(&table[..n], BUDGET, &mut slots);
    if answer.number == 0 {
        slot_lines(&rt, &slots, answer.written)?;
    } else {
        print!(rt; "refused {} ", answer.number)?;
    }
    opened_line(&rt, answer.openings)
}
