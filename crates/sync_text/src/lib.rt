// The text call: a text of no bytes means no picture (document 02, E2). It tests the lengths, reads the whole text, and tests the count of record lines.
#![tactic(auto)]

ghost use Rattle.definitions.specs.Text.{TextAnswer};
ghost use Rattle.sync_text.specs.Promised.{TextPromised};

use common::refusals;
use common::refusals::{refused_at, unless};
use definitions::{TextRead, TextReply};
use sync_read::{RECORDS, parse};

// The words that are lent, and the bytes of the longest text.
pub const TEXT_WORDS: usize = sync_read::TEXT_WORDS;

const BYTES: usize = 65536;

// Text: the bytes, and the words of 99 records to write. It tests 6; no bytes are answered with no picture; then it tests 10 by length, 9, and 10 by lines. Refused, or
// without a picture, it leaves every word. Else it gives the geometry's numbers and the count of record lines, whose words stand first, the rest unchanged.
pub fn read_text(bytes: &[u8], words: &mut [i16]) -> TextReply
    ensures answer { TextAnswer bytes.now words.old result words.new }
    ensures demand2 { TextPromised bytes.now words.old result words.new }
{
    unless(words.len() == TEXT_WORDS, refusals::OUTPUT_LENGTH)?;
    if bytes.len() == 0 {
        return Ok(None);
    }
    unless(bytes.len() <= BYTES, refusals::TEXT_SIZE)?;
    // a match: that the place fits is known here, and would not be in a closure of `map_err`
    match parse(bytes, words) {
        Ok((numbers, lines)) => {
            unless(lines <= RECORDS, refusals::TEXT_SIZE)?;
            let count = lines as u32;
            Ok(Some(TextRead {
                numbers,
                lines: count,
            }))
        }
        Err(p) => Err(refused_at(refusals::GRAMMAR, p as u32)),
    }
}
