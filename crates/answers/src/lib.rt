// What the desk prints for a text: the leftovers of each of its patterns in words and the answers to what they are asked, which kinds
// have no complete situation, and the leftovers of all patterns of a kind together; or the text's first fault.
#![tactic(auto)]

ghost use Rattle.std.specs.Prelude.{◌≡◌, ◌≤◌, ltb, length, take};
ghost use Rattle.texts.specs.Answering.{known_nothing};
ghost use Rattle.texts.specs.Complaints.{complaint};
ghost use Rattle.texts.specs.Desk.{DeskPromise};
ghost use Rattle.complaints.specs.Parts.{fault};
ghost use Rattle.faults.specs.Reasons.{number_of};
ghost use Rattle.pages.specs.Pages.{Puts};
ghost use Rattle.answers.specs.Asked.{LexiconKnown, AnswersWhole};
ghost use Rattle.answers.specs.Answered.{Answered};

use clauses::Glossary;
use dues::Known;
use faults::Reason;
use pages::Page;

// Puts what is said of a fault where no vocabulary was read.
fn complain_unread(text: &[u8], why: Reason, at: usize, page: &mut Page)
    ensures { Puts page.old page.new (complaint text.now known_nothing (fault (number_of why) at 0)) }
{
    let kinds = [0u16; 16];
    let words = [0u16; 96];
    let records = [0u8; 960];
    let known = Known {
        text,
        kinds: &kinds,
        kind_count: 0,
        words: &words,
        word_count: 0,
        records: &records,
    };
    complaints::complain(&known, why.number(), at, 0, page);
}

// Puts the answer where the vocabulary was read.
fn answer_file(known: &Known, from: usize, page: &mut Page)
    requires { LexiconKnown known.now.text.now from known.now.kinds.now known.now.kind_count known.now.words.now known.now.word_count known.now.records.now }
    ensures { AnswersWhole known.now.text.now page.old.bytes page.old.end page.new.bytes page.new.end }
{
    let glossary = Glossary {
        text: known.text,
        words: known.words,
        n: known.word_count,
        records: known.records,
    };
    match paragraphs::check(&glossary, from, known.kinds, known.kind_count) {
        Err(x) => complaints::complain(known, x.why.number(), x.at, x.of, page),
        Ok(m) => files::put_file(&glossary, from, known.kinds, known.kind_count, m, page),
    }
}

// Puts the answer, or what is said of the first fault.
fn answer_whole(text: &[u8], page: &mut Page)
    ensures { AnswersWhole text.now page.old.bytes page.old.end page.new.bytes page.new.end }
{
    if 65535 < text.len() {
        complain_unread(text, Reason::LongText, 65535, page);
        return;
    }
    let mut kinds = [0u16; 16];
    let mut words = [0u16; 96];
    let mut records = [0u8; 960];
    match lexicon::read_lexicon(text, &mut kinds, &mut words, &mut records) {
        Err(x) => complain_unread(text, x.why, x.at, page),
        Ok(x) => {
            let known = Known {
                text,
                kinds: &kinds,
                kind_count: x.kinds,
                words: &words,
                word_count: x.words,
                records: &records,
            };
            answer_file(&known, x.at, page);
        }
    }
}

// Whether more was put on a page than it has room for.
fn is_over(page: &Page) -> bool
    ensures page_len { length page.now.bytes ≡ 1048576 }
    ensures value { result ≡ ltb 1048576 page.now.end }
{
    page.bytes.len() < page.end
}

// Puts the answer at the front of the page; where it has no room, what is said of that.
fn answer_bounded(text: &[u8], page: &mut Page)
    ensures desk_promise { DeskPromise text.now (take page.new.end page.new.bytes) }
    ensures upper_bound { page.new.end ≤ length page.new.bytes }
{
    page.end = 0;
    answer_whole(text, page);
    if is_over(page) {
        page.end = 0;
        page.put(
            b"the answer has more than 1048576 bytes, which are the most: ask for fewer patterns at a time\n",
        );
    }
}

// Puts what the desk prints for a text at the front of the page. The bytes behind it are then 0.
pub fn answer(text: &[u8], page: &mut Page)
    ensures { Answered text.now page.new.bytes page.new.end }
{
    answer_bounded(text, page);
    page.bytes[page.end..].fill(0);
}
