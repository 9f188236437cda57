// Questions in words, read off a text: how far they go, or what is wrong and where.
#![tactic(auto)]

ghost use Rattle.std.specs.Prelude.{◌≡◌};
ghost use Rattle.texts.specs.Lexemes.{lexemes_from, token_at};
ghost use Rattle.texts.specs.QuestionReading.{is_open, open_before, begins_question};
ghost use Rattle.clauses.specs.Reading.{Within};
ghost use Rattle.questions.specs.Asking.{QuestionPromise, QuestionsPromise, SituationPromise, AllPromise, unless_open};

use clauses::Glossary;
use faults::{Fault, Reason};

// Whether a question stands at an offset: a name and a ? behind it.
pub fn begins(text: &[u8], at: usize) -> bool
    ensures { result ≡ begins_question (lexemes_from text.now at) }
{
    let s = lexer::start(text, at);
    if !lexer::is_identifier(text, s) {
        return false;
    }
    let behind = lexer::start(text, lexer::end(text, s));
    lexer::is_mark(text, behind, b'?')
}

// Whether the token that begins at an offset is an open place or a variable.
fn is_open(text: &[u8], s: usize) -> bool
    ensures { result ≡ is_open (token_at text.now s) }
{
    lexer::is_mark(text, s, b'_') || lexer::is_variable(text, s)
}

// The answer, where nothing open stands from an offset on and before the offset e.
fn unless_open(
    text: &[u8],
    from: usize,
    e: usize,
    answer: Result<usize, Fault>,
) -> Result<usize, Fault>
    ensures { result ≡ unless_open (open_before e (lexemes_from text.now from)) answer }
{
    let mut at = from;
    // Kept: a step passes a token with the blanks before it, so no iterator counts it, and a fault says its offset.
    while at < text.len() {
        let s = lexer::start(text, at);
        if e <= s {
            return answer;
        }
        if is_open(text, s) {
            return Err(Fault {
                why: Reason::SituationOpen,
                at: s,
                of: 0,
            });
        }
        at = lexer::end(text, s);
    }
    answer
}

// Reads a situation of a kind.
fn read_situation(glossary: &Glossary<'_>, from: usize, kind: usize) -> Result<usize, Fault>
    ensures { SituationPromise glossary.now.text.now from kind glossary.now.words.now glossary.now.n glossary.now.records.now result }
{
    let text = glossary.text;
    let mut out = [0u8; 4096];
    let mut variables = [0u16; 64];
    match glossary.read(from, 32, kind, &mut out, 1, &mut variables, 0) {
        Err(x) => unless_open(text, from, x.at, Err(x)),
        Ok(p) => unless_open(text, from, lexer::start(text, p.at), Ok(p.at)),
    }
}

// Reads the question at an offset, which asks a pattern of a kind whose label stands at an offset, or at the text's length where it
// has none. Where no question stands there, the text has more than 65,535 bytes, or an offset or a count is out of range, the answer
// means nothing.
pub fn read_question(
    glossary: &Glossary<'_>,
    at: usize,
    label: usize,
    kind: usize,
) -> Result<usize, Fault>
    ensures { QuestionPromise glossary.now.text.now at label kind glossary.now.words.now glossary.now.n glossary.now.records.now result }
{
    let text = glossary.text;
    let s = lexer::start(text, at);
    if !lexer::same_token(text, s, label) {
        return Err(Fault {
            why: Reason::OtherLabel,
            at: s,
            of: 0,
        });
    }
    let asks = lexer::start(text, lexer::end(text, s));
    let from = lexer::end(text, asks);
    read_situation(glossary, from, kind)
}

// Reads questions until none stands there.
fn read_all(glossary: &Glossary<'_>, at: usize, label: usize, kind: usize) -> Result<usize, Fault>
    requires { Within glossary.now.text.now at glossary.now.n 1 0 }
    ensures { AllPromise glossary.now.text.now at label kind glossary.now.words.now glossary.now.n glossary.now.records.now result }
{
    let mut from = at;
    // Kept: how many questions there are is known only when they are read, and each says where the next one stands.
    while begins(glossary.text, from) {
        from = read_question(glossary, from, label, kind)?;
    }
    Ok(from)
}

// Reads all questions that stand from an offset on, each as read_question does, and says the offset behind them. Where the text has
// more than 65,535 bytes, or an offset or a count is out of range, the answer means nothing.
pub fn read_questions(
    glossary: &Glossary<'_>,
    at: usize,
    label: usize,
    kind: usize,
) -> Result<usize, Fault>
    ensures { QuestionsPromise glossary.now.text.now at label kind glossary.now.words.now glossary.now.n glossary.now.records.now result }
{
    if 65535 < glossary.text.len() || glossary.text.len() < at || 96 < glossary.n {
        return Err(Fault {
            why: Reason::LongText,
            at,
            of: 0,
        });
    }
    read_all(glossary, at, label, kind)
}
