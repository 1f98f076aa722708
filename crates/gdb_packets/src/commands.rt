//! What a person asks by gdb's command `monitor`.
ghost use Rattle.std.specs.Prelude.{◌≡◌, ◌∷◌, [], ◌<◌, ◌≤◌, length, IfSome, option_map};
ghost use Rattle.std.specs.Prelude.{Some, None, MatchOption};
ghost use Rattle.gdb_packets.specs.Commands.{decimal_from, address_from, words_between, word_text};
ghost use Rattle.gdb_packets.specs.Commands.{word_among, command_words, if_alone, goto_numbers};
ghost use Rattle.gdb_packets.specs.Commands.{goto_from, page_numbers, page_from};
ghost use Rattle.gdb_packets.specs.Commands.{process_if_named, pages_from, ends_from, command_by};
ghost use Rattle.gdb_packets.specs.Commands.{command_from, digit_of, digits_behind};

use crate::around::around;
use crate::hexadecimal::read_number;

/// How commands begin.
#[derive(Clone, Copy, Debug, PartialEq, Eq)]
pub enum Word {
    Where,
    Goto,
    Threads,
    Processes,
    Page,
    Pages,
    Pipes,
    Ends,
    Sleepers,
    Output,
}

const WORDS: [Word; 10] = [
    Word::Where,
    Word::Goto,
    Word::Threads,
    Word::Processes,
    Word::Page,
    Word::Pages,
    Word::Pipes,
    Word::Ends,
    Word::Sleepers,
    Word::Output,
];

/// What is asked.
#[derive(Clone, Copy, Debug, PartialEq, Eq)]
pub enum Command {
    Where,
    Goto { round: u64, made: u64 },
    /// `goto` without its numbers
    GotoForm,
    Threads,
    Processes,
    Page { address: u32, process: Option<u64> },
    /// `page` without its numbers
    PageForm,
    Pages(Option<u64>),
    Pipes,
    Ends(Option<u64>),
    Sleepers,
    Output,
    Other,
}

/// What a digit stands for.
fn digit_of(c: u8) -> Option<u8>
    ensures value { result ≡ digit_of c }
    ensures small { IfSome result (λ d. d < 10) }
{
    match c {
        b'0'..=b'9' => Some(c - b'0'),
        _ => None,
    }
}

/// What at most nineteen digits stand for.
fn digits_value(text: &[u8]) -> Option<u64>
    requires { length text.now ≤ 19 }
    ensures { result ≡ digits_behind 0 text.now }
{
    let mut value: u64 = 0;
    for c in text {
        let Some(digit) = digit_of(*c) else {
            return None;
        };
        value = value * 10 + u64::from(digit);
    }
    Some(value)
}

/// The number of one to nineteen decimal digits.
fn read_decimal(text: &[u8]) -> Option<u64>
    ensures { result ≡ decimal_from text.now }
{
    if text.is_empty() {
        return None;
    }
    if text.len() > 19 {
        return None;
    }
    digits_value(text)
}

/// A hexadecimal number, with or without `0x`.
fn read_address(text: &[u8]) -> Option<u32>
    ensures { result ≡ address_from text.now }
{
    if text.starts_with("0x".as_bytes()) {
        return read_number(&text[2..]);
    }
    read_number(text)
}

fn word_text(word: Word) -> &'static str
    ensures { result.now ≡ word_text word }
{
    match word {
        Word::Where => "where",
        Word::Goto => "goto",
        Word::Threads => "threads",
        Word::Processes => "processes",
        Word::Page => "page",
        Word::Pages => "pages",
        Word::Pipes => "pipes",
        Word::Ends => "ends",
        Word::Sleepers => "sleepers",
        Word::Output => "output",
    }
}

fn word_in(table: &[Word], text: &[u8]) -> Option<Word>
    ensures { result ≡ word_among table.now text.now }
{
    for word in table {
        if text == word_text(*word).as_bytes() {
            return Some(*word);
        }
    }
    None
}

/// The first word that isn't empty, and what stands behind it.
#[tactic(auto, using(crate::proofs::Parts::words))]
fn next_word(text: &[u8]) -> Option<(&[u8], &[u8])>
    ensures { MatchOption result (words_between text.now ≡ [])
        (λ x. words_between text.now ≡ x.0.now ∷ words_between x.1.now) }
{
    let mut rest = text;
    while let Some((part, behind)) = around(rest, b' ') {
        if !part.is_empty() {
            return Some((part, behind));
        }
        rest = behind;
    }
    if rest.is_empty() {
        return None;
    }
    let (_, end) = rest.split_at(rest.len());
    Some((rest, end))
}

fn if_alone(command: Command, arguments: &[u8]) -> Command
    ensures { result ≡ if_alone command (words_between arguments.now) }
{
    match next_word(arguments) {
        None => command,
        Some(_) => Command::Other,
    }
}

fn goto_numbers(round: Option<u64>, made: Option<u64>) -> Command
    ensures { result ≡ goto_numbers round made }
{
    let Some(round) = round else {
        return Command::GotoForm;
    };
    let Some(made) = made else {
        return Command::GotoForm;
    };
    Command::Goto { round, made }
}

fn read_goto(arguments: &[u8]) -> Command
    ensures { result ≡ goto_from (words_between arguments.now) }
{
    let Some((round, arguments)) = next_word(arguments) else {
        return Command::GotoForm;
    };
    let Some((made, arguments)) = next_word(arguments) else {
        return goto_numbers(read_decimal(round), Some(0));
    };
    match next_word(arguments) {
        None => goto_numbers(read_decimal(round), read_decimal(made)),
        Some(_) => Command::GotoForm,
    }
}

fn page_numbers(address: Option<u32>, process: Option<Option<u64>>) -> Command
    ensures { result ≡ page_numbers address process }
{
    let Some(address) = address else {
        return Command::PageForm;
    };
    let Some(process) = process else {
        return Command::PageForm;
    };
    Command::Page { address, process }
}

fn read_process(text: &[u8]) -> Option<Option<u64>>
    ensures { result ≡ option_map Some (decimal_from text.now) }
{
    match read_decimal(text) {
        None => None,
        Some(process) => Some(Some(process)),
    }
}

fn read_page(arguments: &[u8]) -> Command
    ensures { result ≡ page_from (words_between arguments.now) }
{
    let Some((address, arguments)) = next_word(arguments) else {
        return Command::PageForm;
    };
    let Some((process, arguments)) = next_word(arguments) else {
        return page_numbers(read_address(address), Some(None));
    };
    match next_word(arguments) {
        None => page_numbers(read_address(address), read_process(process)),
        Some(_) => Command::PageForm,
    }
}

fn process_if_named(arguments: &[u8]) -> Option<Option<u64>>
    ensures { result ≡ process_if_named (words_between arguments.now) }
{
    let Some((process, arguments)) = next_word(arguments) else {
        return Some(None);
    };
    match next_word(arguments) {
        None => read_process(process),
        Some(_) => None,
    }
}

fn read_pages(arguments: &[u8]) -> Command
    ensures { result ≡ pages_from (words_between arguments.now) }
{
    match process_if_named(arguments) {
        None => Command::Other,
        Some(process) => Command::Pages(process),
    }
}

fn read_ends(arguments: &[u8]) -> Command
    ensures { result ≡ ends_from (words_between arguments.now) }
{
    match process_if_named(arguments) {
        None => Command::Other,
        Some(process) => Command::Ends(process),
    }
}

fn command_by(word: Word, arguments: &[u8]) -> Command
    ensures { result ≡ command_by word (words_between arguments.now) }
{
    match word {
        Word::Where => if_alone(Command::Where, arguments),
        Word::Goto => read_goto(arguments),
        Word::Threads => if_alone(Command::Threads, arguments),
        Word::Processes => if_alone(Command::Processes, arguments),
        Word::Page => read_page(arguments),
        Word::Pages => read_pages(arguments),
        Word::Pipes => if_alone(Command::Pipes, arguments),
        Word::Ends => read_ends(arguments),
        Word::Sleepers => if_alone(Command::Sleepers, arguments),
        Word::Output => if_alone(Command::Output, arguments),
    }
}

/// What the text of a `monitor` asks.
pub fn read_command(text: &[u8]) -> Command
    ensures { result ≡ command_from text.now }
{
    let Some((name, arguments)) = next_word(text) else {
        return Command::Other;
    };
    match word_in(&WORDS, name) {
        None => Command::Other,
        Some(word) => command_by(word, arguments),
    }
}
