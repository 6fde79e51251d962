// Reads one card from standard input and prints the bounds of its curve and the load at 1/2, or its refusal.
// What is printed is computed by card_report::report; the program itself only reads and writes.
#![tactic(auto)]

use card_report::{MOST_BYTES, MOST_SHOWN, report};
use std::io;
use std::io::{Read, Write};

fn main(rt: HostRuntime) -> io::Result<()> {
    // At most so many bytes are read, into memory of fixed size. By hand, since a read that fails ends the program, also one that a signal interrupts; std's calls try that again.
    let mut input = [0u8; MOST_BYTES];
    let mut size = 0;
    while size < MOST_BYTES {
        let n = rt.stdin().read(&mut input[size..])?;
        if n == 0 {
            break;
        }
        size += n;
    }
    let mut shown = [0u8; MOST_SHOWN];
    let n = report(&input[..size], &mut shown);
    rt.stdout().write_all(&shown[..n])
}
