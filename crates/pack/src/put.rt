// A record at the front of a buffer.
ghost use Rattle.std.specs.Prelude.{◌≡◌, ◌≤◌, ◌%◌};
ghost use Rattle.numbers.specs.Little.{laid};
ghost use Rattle.records.specs.Records.{lead_of, header_word, header_of, encode_one, size};
ghost use Rattle.pack.specs.Rows.{record_of};

use numbers::{put_all, put_little};

// How many bytes a header takes before a body of this length.
#[tactic(auto, unfolding(records::specs::Records::lead_of))]
pub fn lead(len: usize) -> usize
    ensures { (result ≡ lead_of len) × (result ≤ 8) }
{
    if 4095 <= len { 8 } else { 4 }
}

// The 32 bits of a header.
#[tactic(auto, unfolding(records::specs::Records::header_word))]
fn word(tag: u32, level: u32, size: u32) -> u32
    ensures { result ≡ header_word tag level size % 4294967296 }
{
    let bits = tag as u64 + 1024 * (level as u64) + 1048576 * (size as u64);
    (bits % 4294967296) as u32
}

// Writes the header of a body of this length at the front of out; where there is no room nothing is written.
#[tactic(auto, using(crate::proofs::PutLaws::short_laid))]
pub fn put_header(out: &mut [u8], tag: u32, level: u32, len: usize)
    ensures { out.new ≡ laid (header_of tag level len) out.old }
{
    if len < 4095 {
        put_little::<4>(out, word(tag, level, len as u32));
        return;
    }
    if 8 <= out.len() {
        put_little::<4>(out, word(tag, level, 4095));
        put_little::<4>(&mut out[4..], (len % 4294967296) as u32);
    }
}

// Writes a record at the front of out and says how many bytes it takes; where there is no room nothing is written.
pub fn put_record(out: &mut [u8], tag: u32, level: u32, body: &[u8]) -> usize
    ensures { (result ≡ size (record_of tag level body.now)) × (out.new ≡ laid (encode_one (record_of tag level body.now)) out.old) }
{
    let start = lead(body.len());
    let taken = start + body.len();
    if taken <= out.len() {
        put_header(out, tag, level, body.len());
        put_all(&mut out[start..], body);
    }
    taken
}
