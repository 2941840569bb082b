// What the words of a call choose for each list: its setting and its class book. Without an option a list is read strictly and with an empty book;
// `--lenient` and `--book FILE` are for every list of the call, and with `-first` or `-second` at their end they are for one of two. A call is wrong
// with any other word where an option may stand, with an option that chooses what was chosen before, and where a file's name is missing.
#![tactic(auto)]

ghost use Rattle.std.specs.Prelude.{◌≡◌, ◌<◌};
ghost use Rattle.options.specs.Options.{lists_of, option_of, names_book, for_one, with_option, plainly, chosen_by, taken, Onward};

use format::Setting;
use output::{Output, say};
use std::env::{Env, FillError};

// What an option chooses.
#[derive(Clone, Copy, PartialEq, Eq)]
pub enum What {
    Lenient,
    Book,
}

// For which of two lists it is.
#[derive(Clone, Copy, PartialEq, Eq)]
pub enum Lists {
    First,
    Second,
    Both,
}

// A word that is an option.
#[derive(Clone, Copy)]
pub struct Word {
    pub what: What,
    pub lists: Lists,
}

// What is chosen for a list: its setting, and the number of the word that names the file of its class book.
#[derive(Clone, Copy)]
pub struct Choice {
    pub setting: Setting,
    pub book: Option<usize>,
}

// What is chosen for two lists.
#[derive(Clone, Copy)]
pub struct Choices {
    pub first: Choice,
    pub second: Choice,
}

// A call whose words choose nothing that can be done.
#[derive(Clone, Copy, Debug, PartialEq, Eq)]
pub struct WrongCall;

// ---- options by their words

// The lists for which a word is this option.
fn lists_of(word: &[u8], option: &[u8]) -> Option<Lists>
    ensures { result ≡ lists_of word.now option.now }
{
    let end = word.strip_prefix(option)?;
    if end.is_empty() {
        return Some(Lists::Both);
    }
    if end == b"-first".as_slice() {
        return Some(Lists::First);
    }
    (end == b"-second".as_slice()).then_some(Lists::Second)
}

// The option that a word is.
pub fn option_of(word: &[u8]) -> Option<Word>
    ensures { result ≡ option_of word.now }
{
    let lenient = |lists| Word {
        what: What::Lenient,
        lists,
    };
    let book = |lists| Word {
        what: What::Book,
        lists,
    };
    lists_of(word, b"--book")
        .map(book)
        .or(lists_of(word, b"--lenient").map(lenient))
}

// Whether a file's name comes after an option.
fn names_book(word: Word) -> bool
    ensures { result ≡ names_book word }
{
    word.what == What::Book
}

// The option in a program with one list, where none is for one of two.
fn for_one(word: Word) -> Option<Word>
    ensures { result ≡ for_one word }
{
    match word.lists {
        Lists::Both => Some(word),
        Lists::First | Lists::Second => None,
    }
}

// ---- what options choose

// Nothing is chosen.
fn unchosen() -> Choices
    ensures { result ≡ plainly }
{
    let plain = Choice {
        setting: Setting::Strict,
        book: None,
    };
    Choices {
        first: plain,
        second: plain,
    }
}

impl Choice {
    // What an option chooses for a list, with the number of the word that names a book. Wrong where it was chosen before.
    fn with_option(self, what: What, book: Option<usize>) -> Result<Choice, WrongCall>
        ensures { result ≡ with_option what book self }
    {
        match (what, self.setting, self.book) {
            (What::Lenient, Setting::Strict, _) => Ok(Choice {
                setting: Setting::Lenient,
                ..self
            }),
            (What::Book, _, None) => Ok(Choice { book, ..self }),
            _ => Err(WrongCall),
        }
    }
}

// What an option chooses, with the number of the word after it.
pub fn chosen_by(c: Choices, word: Word, book: Option<usize>) -> Result<Choices, WrongCall>
    ensures { result ≡ chosen_by word book c }
{
    let with = |list: Choice| list.with_option(word.what, book);
    match word.lists {
        Lists::First => with(c.first).map(|first| Choices { first, ..c }),
        Lists::Second => with(c.second).map(|second| Choices { second, ..c }),
        Lists::Both => Ok(Choices {
            first: with(c.first)?,
            second: with(c.second)?,
        }),
    }
}

// What an option at word i of n adds to the choice, and the number of the word that is looked at next: with a file's name an option takes two words.
pub fn taken(c: Choices, word: Word, i: usize, n: usize) -> Result<(Choices, usize), WrongCall>
    requires { i < n }
    ensures { (result ≡ taken word i n c) × Onward i n result }
{
    let chosen = chosen_by(c, word, Some(i + 1));
    if !names_book(word) {
        return chosen.map(|c| (c, i + 1));
    }
    if n - i == 1 {
        return Err(WrongCall);
    }
    chosen.map(|c| (c, i + 2))
}

// ---- the words of this call

// What the option at word i of n adds, in a program that takes what is `allowed` of the options. A word that is too long to be an option is taken as
// an empty one.
fn word_at<F: Fn(Word) -> Option<Word>>(
    rt: &impl Env,
    c: Choices,
    i: usize,
    n: usize,
    allowed: &F,
) -> Result<(Choices, usize), WrongCall>
    requires within { i < n }
    requires callable { F.IsAlwaysCallable allowed.now }
    ensures { Onward i n result }
{
    let mut space = io::buffer();
    let k = rt.arg(i, &mut space).unwrap_or(0);
    let word = option_of(&space[..k]).and_then(allowed).ok_or(WrongCall)?;
    taken(c, word, i, n)
}

// How many words the call has, the program's name among them. A word that is too long to be copied is one too.
pub fn word_count(rt: &impl Env) -> usize {
    let mut space = io::buffer();
    for i in 0..usize::MAX {
        if let Err(FillError::NotPresent) = rt.arg(i, &mut space) {
            return i;
        }
    }
    usize::MAX
}

// What the words from number `from` on choose; the program's name is number 0. An option takes one word or two and says at which the next stands, so no
// range gives their numbers.
fn words_from<F: Fn(Word) -> Option<Word>>(
    rt: &impl Env,
    from: usize,
    allowed: F,
) -> Result<Choices, WrongCall>
    requires { F.IsAlwaysCallable allowed }
{
    let n = word_count(rt);
    let mut c = unchosen();
    let mut i = from;
    while i < n {
        (c, i) = word_at(rt, c, i, n, &allowed)?;
    }
    Ok(c)
}

// What a call of a program chooses that takes options and no other words.
pub fn one(rt: &impl Env) -> Result<Choice, WrongCall> {
    Ok(words_from(rt, 1, for_one)?.first)
}

// What a call of a program chooses that takes two files and then options.
pub fn two(rt: &impl Env) -> Result<Choices, WrongCall> {
    words_from(rt, 3, Some)
}

// Says to standard error how a program is called.
pub fn usage(call: &[u8]) {
    say!(Output::Error; "usage: ");
    Output::Error.bytes(call);
    say!(Output::Error; "\n");
}
