// Lists the records of a section that comes on standard input: for each the place of its header, tag, level and body length, then
// `ok` and their number; or `refused`, the number and the place.
#![tactic(auto)]

ghost use Rattle.std.specs.Prelude.{◌≤◌, length, IfOk};

use records::{Fault, Offset, Record, Refusal, records_of};
use section::check;
use std::io::Read;
use std::{fmt, io};

// As much of standard input as there is room for.
fn read_full(rt: &impl Input, section: &mut [u8]) -> io::Result<usize>
    ensures { IfOk result (λ n. n ≤ length section.old) }
{
    let mut reader = rt.reader();
    let mut n: usize = 0;
    // No `for`: how often it reads is up to the reader.
    while n < section.len() {
        let more = reader.read(&mut section[n..])?;
        if more == 0 {
            break;
        }
        n += more;
    }
    Ok(n)
}

// A record as a line has it.
#[derive(Clone, Copy)]
struct Listed(Record);

impl fmt::Display for Listed {
    fn fmt<W: fmt::Write>(&self, f: &mut fmt::Formatter<W>) -> fmt::Result {
        let r = self.0;
        let at = r.at.0;
        let tag = r.tag;
        let level = r.level;
        let len = r.len;
        write!(f, "{at} {tag} {level} {len}")
    }
}

fn print_refusal(rt: &impl Print, r: Refusal) -> io::Result<()> {
    let number = r.fault.number();
    let place = r.place.0;
    println!(rt; "refused {number} at {place}")
}

fn list(rt: &impl Print, s: &[u8]) -> io::Result<()> {
    match check(s) {
        Ok(n) => {
            for item in records_of(s, Offset(0), 0) {
                let Ok(r) = item else {
                    break;
                };
                let line = Listed(r);
                println!(rt; "{line}")?;
            }
            println!(rt; "ok {n}")
        }
        Err(r) => print_refusal(rt, r),
    }
}

fn main(rt: HostRuntime) -> io::Result<()> {
    let mut section = [0u8; 65537];
    let n = read_full(&rt, &mut section)?;
    if 65536 < n {
        return print_refusal(
            &rt,
            Refusal {
                fault: Fault::StreamTooLong,
                place: Offset(0),
            },
        );
    }
    list(&rt, &section[..n])
}
