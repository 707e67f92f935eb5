// The C face: every service for programs in C, each answering with one number (document 01, 'What the part does'). Here check, field text and
// fill; beside it the reads and pack.
#![tactic(auto)]

mod packing;
mod reading;

ghost use Rattle.std.specs.Prelude.{◌≡◌};
ghost use Rattle.records.specs.Answers.{place_bits, host_form, sum_of};
ghost use Rattle.section.specs.Section.{check_answer};
ghost use Rattle.filling.specs.Filling.{text_number, text_place, text_length, text_sum};
ghost use Rattle.orders.specs.Calls.{field_text_of};
ghost use Rattle.host.specs.Promise.{ToldFill};

use fields::{field_text, fill};
use filling::TextAnswer;
pub use packing::hwp_pack;
pub use reading::{hwp_read, hwp_read_docinfo, hwp_read_section};
use records::{Refusal, bits, host};
use section::check;

// The host's form of field text's answer: only it has a further number, the length in bytes.
fn told(answer: TextAnswer) -> u64
    ensures { result ≡ host_form (text_number answer) (place_bits (text_place answer)) (place_bits (text_length answer)) }
{
    match answer {
        Ok(text) => host::<Refusal>(Ok(text.place.0)) + 68719476736 * bits(text.len),
        Err(r) => host::<Refusal>(Err(r)),
    }
}

// The number of a section, with the place or the record count.
#[unsafe(no_mangle)]
pub extern "C" fn hwp_check(section: &[u8]) -> u64
    ensures { result ≡ sum_of (check_answer section.now) }
{
    host(check(section))
}

// Where the text of the field with the id starts, and how many bytes it has.
#[unsafe(no_mangle)]
pub extern "C" fn hwp_field_text(section: &[u8], id: u32) -> u64
    ensures { result ≡ text_sum (field_text_of section.now id) }
{
    told(field_text(section, id))
}

// The sheet with the field filled, at the front of the buffer, and its length.
#[unsafe(no_mangle)]
pub extern "C" fn hwp_fill(section: &[u8], id: u32, value: &[u8], sheet: &mut [u8]) -> u64
    ensures { ToldFill section.now id value.now sheet.old result sheet.new }
{
    host(fill(section, id, value, sheet))
}
