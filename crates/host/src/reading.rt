// The three reads: they differ in their rules alone, and one function reads for all. C lends each list by itself.
ghost use Rattle.std.specs.Prelude.{◌≡◌, ◌≤◌, ℕ, List, Ok};
ghost use Rattle.numbers.specs.Little.{Bytes};
ghost use Rattle.records.specs.Records.{limit};
ghost use Rattle.records.specs.Answers.{Answer, place};
ghost use Rattle.records.specs.Table.{read_answer, lists};
ghost use Rattle.docinfo.specs.DocInfo.{docinfo_answer};
ghost use Rattle.section.specs.Section.{section_answer};
ghost use Rattle.host.specs.ToldTable.{ToldTable};

use docinfo::check_docinfo;
use records::{Answer, Columns, enter, host, scan};
use section::answer_within;

// The rules that a stream is read by.
pub trait Rules {
    ghost answers: { List ℕ → ℕ → Answer };

    // What a read by these rules answers where the shortest list has `room` entries.
    fn answer(stream: &[u8], room: usize) -> Answer
        ensures { result ≡ answers stream.now room };

    // No rules accept what read refuses.
    ghost stricter: { (s : List ℕ) (room n : ℕ) → answers s room ≡ Ok n → read_answer s room ≡ Ok n };

    // Every place is within the limit.
    ghost near: { (s : List ℕ) (room : ℕ) → Bytes s → place (answers s room) ≤ limit };
}

// The rules of records alone.
#[derive(Clone, Copy)]
pub struct Plain;

// The rules of a section.
#[derive(Clone, Copy)]
pub struct Section;

// The rules of DocInfo.
#[derive(Clone, Copy)]
pub struct DocInfo;

impl Rules for Plain {
    ghost use Rattle.records.proofs.ScanLaws.{answer_near};

    ghost answers = { read_answer };

    ghost stricter = { λ s room n e. e };

    ghost near = { answer_near };

    fn answer(stream: &[u8], room: usize) -> Answer {
        scan(stream, room)
    }
}

impl Rules for Section {
    ghost use Rattle.section.proofs.NearLaws.{section_near};
    ghost use Rattle.section.proofs.SectionLaws.{section_accepted};

    ghost answers = { section_answer };

    ghost stricter = { section_accepted };

    ghost near = { section_near };

    fn answer(stream: &[u8], room: usize) -> Answer {
        answer_within(stream, room)
    }
}

impl Rules for DocInfo {
    ghost use Rattle.docinfo.proofs.AnswerLaws.{answer_accepted};
    ghost use Rattle.docinfo.proofs.NearLaws.{docinfo_near};

    ghost answers = { docinfo_answer };

    ghost stricter = { answer_accepted };

    ghost near = { docinfo_near };

    fn answer(stream: &[u8], room: usize) -> Answer {
        check_docinfo(stream, room)
    }
}

// A read by these rules: its answer, and its table where it accepts.
fn read_by<R: Rules>(
    stream: &[u8],
    tags: &mut [u32],
    levels: &mut [u32],
    places: &mut [u32],
    lengths: &mut [u32],
    parents: &mut [u32],
) -> u64
    ensures { ToldTable R.answers stream.now (lists tags.old levels.old places.old lengths.old parents.old) result (lists tags.new levels.new places.new lengths.new parents.new) }
{
    let mut columns = Columns {
        tags,
        levels,
        places,
        lengths,
        parents,
    };
    let answer = R::answer(stream, columns.room());
    enter(stream, answer, &mut columns);
    host(answer)
}

// Read, records only.
#[unsafe(no_mangle)]
pub extern "C" fn hwp_read(
    stream: &[u8],
    tags: &mut [u32],
    levels: &mut [u32],
    places: &mut [u32],
    lengths: &mut [u32],
    parents: &mut [u32],
) -> u64
    ensures { ToldTable read_answer stream.now (lists tags.old levels.old places.old lengths.old parents.old) result (lists tags.new levels.new places.new lengths.new parents.new) }
{
    read_by::<Plain>(stream, tags, levels, places, lengths, parents)
}

// The section read.
#[unsafe(no_mangle)]
pub extern "C" fn hwp_read_section(
    stream: &[u8],
    tags: &mut [u32],
    levels: &mut [u32],
    places: &mut [u32],
    lengths: &mut [u32],
    parents: &mut [u32],
) -> u64
    ensures { ToldTable section_answer stream.now (lists tags.old levels.old places.old lengths.old parents.old) result (lists tags.new levels.new places.new lengths.new parents.new) }
{
    read_by::<Section>(stream, tags, levels, places, lengths, parents)
}

// The DocInfo read.
#[unsafe(no_mangle)]
pub extern "C" fn hwp_read_docinfo(
    stream: &[u8],
    tags: &mut [u32],
    levels: &mut [u32],
    places: &mut [u32],
    lengths: &mut [u32],
    parents: &mut [u32],
) -> u64
    ensures { ToldTable docinfo_answer stream.now (lists tags.old levels.old places.old lengths.old parents.old) result (lists tags.new levels.new places.new lengths.new parents.new) }
{
    read_by::<DocInfo>(stream, tags, levels, places, lengths, parents)
}
