// The calls of the papers for other languages: each answers in the numbers of the crate `numbers`.
#![tactic(auto)]

ghost use Rattle.std.specs.Prelude.{◌≡◌};
ghost use Rattle.wire.specs.Effect.{HasEffect};
ghost use Rattle.wire.specs.CheckComputed.{vocabulary_reply, term_reply};
ghost use Rattle.wire.specs.MatchComputed.{matched, part_span};
ghost use Rattle.wire.specs.ListComputed.{listed};
ghost use Rattle.wire.specs.FillComputed.{filled};
ghost use Rattle.numbers.specs.Numbers.{reply_in, span_said};
ghost use Rattle.pheasantry.specs.Replies.{VocabularyReplied, TermReplied, MatchReplied, PartReplied, ListReplied, FillReplied, BookReplied};

use numbers::Numbers;

// Checks a vocabulary.
#[unsafe(no_mangle)]
pub extern "C" fn pheasantry_check_vocabulary(vocabulary: &[u8], reply: &mut Numbers)
    ensures vocabulary_replied { VocabularyReplied vocabulary.now reply.new }
    ensures reply_after { reply_in 0 reply.new ≡ vocabulary_reply vocabulary.now }
{
    *reply = numbers::vocabulary_numbers(signature::check_vocabulary(vocabulary));
}

// Checks a term under a vocabulary. The values are its number of words, its deepest level, 1 if it is complete and 0
// if not, and its gap.
#[unsafe(no_mangle)]
pub extern "C" fn pheasantry_check_term(vocabulary: &[u8], term: &[u8], reply: &mut Numbers)
    ensures term_replied { TermReplied vocabulary.now term.now reply.new }
    ensures reply_after { reply_in 4 reply.new ≡ term_reply vocabulary.now term.now }
{
    *reply = numbers::term_numbers(reader::check_term(vocabulary, term));
}

// Matches a pattern with a complete situation. The value is 1 for yes, which fills the table, and 0 for no.
// No and a refusal leave the table as it was.
#[unsafe(no_mangle)]
pub extern "C" fn pheasantry_match(
    vocabulary: &[u8],
    pattern: &[u8],
    situation: &[u8],
    table: &mut [u16],
    reply: &mut Numbers,
)
    ensures cases { MatchReplied vocabulary.now pattern.now situation.now table.old table.new reply.new }
    ensures has_effect { HasEffect (matched vocabulary.now pattern.now situation.now table.old) (reply_in 1 reply.new) table.new }
{
    *reply = numbers::match_numbers(matcher::match_pattern(vocabulary, pattern, situation, table));
}

// The part of the situation that a name of the pattern covers. The values are its offset and its length, 0
// and 0 for the empty part; there is no refusal.
#[unsafe(no_mangle)]
pub extern "C" fn pheasantry_part(
    vocabulary: &[u8],
    pattern: &[u8],
    situation: &[u8],
    name: u64,
    reply: &mut Numbers,
)
    ensures part_replied { PartReplied vocabulary.now pattern.now situation.now name reply.new }
    ensures reply_after { span_said reply.new ≡ part_span vocabulary.now pattern.now situation.now name }
{
    if 63 < name {
        *reply = numbers::accepted(0, 0);
        return;
    }
    let n = name as usize;
    // Only a yes writes into the table, so the answer is not needed.
    let mut table = [0u16; 128];
    let _ = matcher::match_pattern(vocabulary, pattern, situation, &mut table);
    let offset = u64::from(table[2 * n]);
    let length = u64::from(table[2 * n + 1]);
    *reply = numbers::accepted(offset, length);
}

// Writes the leftovers of a pattern into out. The values are the number of entries and of bytes. A refusal
// leaves out as it was.
#[unsafe(no_mangle)]
pub extern "C" fn pheasantry_list(
    vocabulary: &[u8],
    pattern: &[u8],
    out: &mut [u8],
    reply: &mut Numbers,
)
    ensures list_replied { ListReplied vocabulary.now pattern.now out.old out.new reply.new }
    ensures has_effect { HasEffect (listed vocabulary.now pattern.now out.old) (reply_in 2 reply.new) out.new }
{
    *reply = numbers::list_numbers(complement::list(vocabulary, pattern, out));
}

// Writes a pattern with each name replaced, by a filling file, into out. The value is the result's length. A refusal
// leaves out as it was.
#[unsafe(no_mangle)]
pub extern "C" fn pheasantry_fill(
    vocabulary: &[u8],
    pattern: &[u8],
    filling: &[u8],
    out: &mut [u8],
    reply: &mut Numbers,
)
    ensures fill_replied { FillReplied vocabulary.now pattern.now filling.now out.old out.new reply.new }
    ensures has_effect { HasEffect (filled vocabulary.now pattern.now filling.now out.old) (reply_in 1 reply.new) out.new }
{
    *reply = numbers::fill_numbers(filler::fill(vocabulary, pattern, filling, out));
}

// Writes the leftovers of a book into out, in an order that is not promised. The values are the number of entries
// and of bytes. A refusal leaves out as it was.
#[unsafe(no_mangle)]
pub extern "C" fn pheasantry_list_book(
    vocabulary: &[u8],
    book: &[u8],
    out: &mut [u8],
    reply: &mut Numbers,
)
    ensures { BookReplied vocabulary.now book.now out.old out.new reply.new }
{
    *reply = numbers::book_numbers(books::list_book(vocabulary, book, out));
}
