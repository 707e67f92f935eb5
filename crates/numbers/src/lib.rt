// Numbers in the bytes at the front of a slice, the lowest byte first; and parts of a slice.
#![tactic(auto)]

ghost use Rattle.std.specs.Prelude.{◌≡◌, ◌<◌, ◌≤◌, length, take, drop};
ghost use Rattle.numbers.specs.Little.{little, bytes_of, laid};

// 32 bits as a number that counts and indexes; Rust has no `From` for it.
#[inline]
pub fn wide(x: u32) -> usize
    ensures { (result ≡ x) × (result < 4294967296) }
{
    x as usize
}

// The number in all bytes of s, the lowest byte first.
#[inline]
#[tactic(auto, using(crate::proofs::LittleLaws::word_padded))]
fn whole(s: &[u8]) -> u32
    requires { length s.now ≤ 4 }
    ensures { result ≡ little 4 s.now }
{
    let mut bytes = [0; 4];
    bytes[..s.len()].copy_from_slice(s);
    u32::from_le_bytes(bytes)
}

// The number in the first N bytes of s, the lowest byte first; a byte that is not there counts as 0. What asks for N here and above asks that 32
// bits hold it: a const parameter has no type of its own that could say so.
#[inline]
#[tactic(auto, using(crate::proofs::LittleLaws::little_front, crate::proofs::LittleLaws::little_short))]
pub fn little<const N: usize>(s: &[u8]) -> u32
    requires { N ≤ 4 }
    ensures { result ≡ little N s.now }
{
    match s.first_chunk::<N>() {
        Some(front) => whole(front),
        None => whole(s),
    }
}

// The number in the N bytes from `at` on; a byte that is not there counts as 0.
#[inline]
#[tactic(auto, using(crate::proofs::LittleLaws::little_part))]
pub fn little_at<const N: usize>(s: &[u8], at: usize) -> u32
    requires { N ≤ 4 }
    ensures { result ≡ little N (drop at s.now) }
{
    little::<N>(part(s, at, N))
}

// Writes the N lowest bytes of a number at the front of out, the lowest first; where there is no room nothing is written.
#[inline]
#[tactic(auto, using(crate::proofs::LittleLaws::lowest))]
pub fn put_little<const N: usize>(out: &mut [u8], w: u32)
    requires { N ≤ 4 }
    ensures { out.new ≡ laid (bytes_of N w) out.old }
{
    put_all(out, &w.to_le_bytes()[..N]);
}

// Copies s to the front of out; where there is no room nothing is written.
#[inline]
#[tactic(auto, unfolding(crate::specs::Little::laid))]
pub fn put_all(out: &mut [u8], s: &[u8])
    ensures { out.new ≡ laid s.now out.old }
{
    if s.len() <= out.len() {
        out[..s.len()].copy_from_slice(s);
    }
}

// Of the bytes from `from` on the first n, as far as there are any.
#[inline]
pub fn part<'a>(s: &'a [u8], from: usize, n: usize) -> &'a [u8]
    ensures { result.now ≡ take n (drop from s.now) }
{
    let rest = &s[from.min(s.len())..];
    &rest[..n.min(rest.len())]
}
