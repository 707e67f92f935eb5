// Bytes put one behind the other into a buffer. What has no room is not written, and is counted all the same.
ghost use Rattle.std.specs.Prelude.{◌≡◌, ◌+◌, ◌≤◌, min, length, take, drop};
ghost use Rattle.numbers.specs.Little.{bytes_of};
ghost use Rattle.records.specs.Records.{header_of};
ghost use Rattle.putting.specs.Putting.{largest};

use numbers::{part, put_all, put_little};
use pack::{lead, put_header};
use records::Offset;

// The place behind n bytes, or the largest number that there is.
fn ahead(at: Offset, n: usize) -> Offset
    ensures { result.0 ≡ min largest (at.0 + n) }
{
    Offset(at.0.saturating_add(n))
}

// A buffer that is written from its front, and the place of the next byte. Its length and the place have 64 bits.
#[derive(Drop)]
pub struct Sheet<'a> {
    pub out: &'a mut [u8],
    pub at: Offset,
    pub ghost room: { length out.now ≤ largest },
    pub ghost place: { at.0 ≤ largest },
}

impl<'a> Sheet<'a> {
    ghost use Rattle.putting.specs.Sheet.{Put};

    // Puts s, and goes behind it.
    pub fn put_run(&mut self, s: &[u8])
        ensures { Put self.old s.now self.new }
    {
        let place = self.at.0;
        self.at = ahead(self.at, s.len());
        if place < self.out.len() {
            let room = self.out.len() - place;
            put_all(&mut self.out[place..], part(s, 0, room));
        }
    }

    // Puts a part of s: n bytes from byte `from` of it on.
    pub fn put_part(&mut self, s: &[u8], from: usize, n: usize)
        ensures { Put self.old (take n (drop from s.now)) self.new }
    {
        self.put_run(part(s, from, n));
    }

    // Puts all of s from byte `from` of it on.
    pub fn put_rest(&mut self, s: &[u8], from: usize)
        ensures { Put self.old (drop from s.now) self.new }
    {
        self.put_part(s, from, s.len());
    }

    // Puts the lowest n bytes of a number of 32 bits.
    pub fn put_low(&mut self, w: usize, n: usize)
        ensures { Put self.old (take n (bytes_of 4 w)) self.new }
    {
        let mut four = [0u8; 4];
        put_little::<4>(&mut four, (w % 4294967296) as u32);
        self.put_part(&four, 0, n);
    }

    // Puts the header of a body of this length.
    pub fn put_head(&mut self, tag: u32, level: u32, len: usize)
        ensures { Put self.old (header_of tag level len) self.new }
    {
        let mut eight = [0u8; 8];
        put_header(&mut eight, tag, level, len);
        self.put_part(&eight, 0, lead(len));
    }
}
