// For bench/ alone: many questions about links in one call, each in two forms: the link test, in one pass (0) and as it was before (1); and what stops the
// three links of a switch, together (2) and one after the other (3). The promises here are about memory; what the answers mean is said by `Tests` and
// `stopper`.
#![tactic(auto)]

ghost use Rattle.std.specs.Prelude.{◌≡◌, false, ◌<◌};
ghost use Rattle.fabric.specs.Labels.{size};

use asked::Lowest;
use book::SoundBook;
use book_maker::sound_book_of;
use packer::told;
use table::Refusal;

// What is asked, and how it is found; C hands over a number, and each that is none of the first three is the last.
#[derive(Clone, Copy)]
enum Form {
    OnePass,
    AsItWas,
    Together,
    OneByOne,
}

impl From<u8> for Form {
    fn from(form: u8) -> Form {
        match form {
            0 => Form::OnePass,
            1 => Form::AsItWas,
            2 => Form::Together,
            _ => Form::OneByOne,
        }
    }
}

// Which link is asked for; there may be none such.
#[derive(Clone, Copy)]
struct Question {
    stage: u8,
    switch: u16,
    code: u8,
}

// Its switch stands in the low 16 bits, its stage in the next 8, its code in the last 8.
impl From<u32> for Question {
    fn from(link: u32) -> Question {
        let [low, high, stage, code] = link.to_le_bytes();
        Question {
            stage,
            switch: u16::from_le_bytes([low, high]),
            code,
        }
    }
}

// Answers each link. Refused where there is not one answer for each, or the sheet is none; then nothing is written.
// A bool: the C interface.
#[unsafe(no_mangle)]
pub extern "C" fn bench_links(sheet: &[u8], links: &[u32], answers: &mut [u64], form: u8) -> bool
    ensures { result ≡ false → answers.new ≡ answers.old }
{
    if links.len() != answers.len() {
        return false;
    }
    match sound_book_of(sheet) {
        Ok(book) => {
            answer_all(&book, links, answers, Form::from(form));
            true
        }
        Err(_) => false,
    }
}

fn answer_all(book: &SoundBook, links: &[u32], answers: &mut [u64], form: Form) {
    for (link, answer) in links.iter().zip(answers.iter_mut()) {
        *answer = answered(book, Question::from(*link), form);
    }
}

fn answered(book: &SoundBook, question: Question, form: Form) -> u64 {
    let Question {
        stage,
        switch,
        code,
    } = question;
    match form {
        Form::OnePass => told(asked::link(book.book, stage, switch, code)),
        Form::AsItWas => told(judged_first(book, stage, switch, code)),
        Form::Together | Form::OneByOne => three(book, stage, switch, form),
    }
}

// The entry as it was: 16 by the book's own test, and then what stops the link.
fn judged_first(
    book: &SoundBook,
    stage: u8,
    switch: u16,
    code: u8,
) -> Result<Option<u16>, Refusal> {
    if book.book.unsound() {
        return Err(Refusal::Book);
    }
    asked::tested(book, stage, switch, code)
}

// The three numbers of a switch as one; 0 for a switch that is none.
// 0 for none: the number that C takes.
fn three(book: &SoundBook, stage: u8, switch: u16, form: Form) -> u64 {
    if book.book.n <= stage || book.fabric().outside_labels(switch) {
        return 0;
    }
    let found = match form {
        Form::Together => asked::stoppers(book, stage, switch),
        _ => one_by_one(book, stage, switch),
    };
    joined(found)
}

fn one_by_one(book: &SoundBook, stage: u8, switch: u16) -> Lowest
    requires { (stage < book.now.book.n) × (switch < size book.now.book.n) }
{
    Lowest {
        straight: asked::stopper(book, stage, switch, 0),
        plus: asked::stopper(book, stage, switch, 1),
        minus: asked::stopper(book, stage, switch, 2),
    }
}

// 16 bits for each link, the straight one's lowest; 0 where a link is clear.
// 0 for none: the number that C takes.
fn joined(found: Lowest) -> u64 {
    let [straight, plus, minus] = [found.straight, found.plus, found.minus].map(|number| u64::from(
        number.unwrap_or(0),
    ));
    straight | plus << 16 | minus << 32
}
