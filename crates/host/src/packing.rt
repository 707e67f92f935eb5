// Pack.
ghost use Rattle.records.specs.Table.{lists};
ghost use Rattle.host.specs.ToldPack.{ToldPack};

use pack::{Table, pack};
use records::host;

// The stream of the first `count` rows of a table over `bytes`, at the front of the buffer, and its length. An index that needs more than
// 28 bits is given as the largest: only a list of more than 268,435,455 entries has one.
#[unsafe(no_mangle)]
pub extern "C" fn hwp_pack(
    count: usize,
    tags: &[u32],
    levels: &[u32],
    places: &[u32],
    lengths: &[u32],
    parents: &[u32],
    bytes: &[u8],
    out: &mut [u8],
) -> u64
    ensures { ToldPack count (lists tags.now levels.now places.now lengths.now parents.now) bytes.now out.old result out.new }
{
    let table = Table {
        count,
        tags,
        levels,
        places,
        lengths,
        parents,
        bytes,
    };
    host(pack(table, out))
}
