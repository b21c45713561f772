// What a line says: its command, by the table of the protocol, and the numbers beside it.
#![tactic(auto)]

ghost use Rattle.std.specs.Prelude.{◌≡◌, true, false, List, [], ◌∷◌, ℕ, ◌≤◌, ◌<◌, length, take, IfSome, Some};
ghost use Rattle.text.specs.Text.{text};
ghost use Rattle.text.specs.Text.{same as «same_text»};
ghost use Rattle.text.specs.Decimal.{number_of};
ghost use Rattle.text.specs.Words.{words as «words_of»};
ghost use Rattle.command.specs.Command.{most_numbers, two, paired, at_most, numbers_in, values_of, table, look_up, command_of, beside, operands_of};

use text::{decimal, words};

// The largest version that a line may name.
const MOST_VERSION: u32 = 65535;

// The most records of a line.
const MOST_RECORDS: usize = 1024;

// The most words that `expect` writes into.
pub const MOST_ROOM: u32 = 1024;

// The most numbers that a line has: a version, a room and the records of `expect`.
pub const MOST_NUMBERS: usize = MOST_RECORDS + 2;

// The longest line that is no `bad`: `expect`, a version of five digits and a room of four, each
// after a space, and a space and ten digits for each record.
pub const LONGEST_LINE: usize = 17 + 11 * MOST_RECORDS;

// A call that moves the current state by a step.
#[derive(Clone, Copy)]
pub enum Call {
    Reset,
    Read(u8),
    Write(u8, u8),
    Sin(u8),
    Modem(u8),
    Tick,
    Ticks(u32),
}

// A line's command. The numbers of `load` stand beside it, and so do those of `replay` and `expect`,
// whose version, room and number of records it has.
#[derive(Clone, Copy)]
pub enum Command {
    Fresh,
    Load,
    State,
    Step(Call),
    Pins,
    Forecast,
    Level(u32),
    Run(u32),
    Replay(u32, usize),
    Part,
    Divisor(u32, u32),
    Expect(u32, usize, usize),
    Jump(u32),
    JumpRun(u32),
    Bad,
}

// The command of a word with no number after it. A chain of tests: a `match` on byte strings left a goal
// open for each byte.
fn bare(word: &[u8]) -> Command
    ensures value { result ≡ look_up table word.now [] }
    ensures result_value { beside result ≡ 0 }
{
    if words::same(word, b"tick") {
        return Command::Step(Call::Tick);
    }
    if words::same(word, b"pins") {
        return Command::Pins;
    }
    if words::same(word, b"state") {
        return Command::State;
    }
    if words::same(word, b"fresh") {
        return Command::Fresh;
    }
    if words::same(word, b"reset") {
        return Command::Step(Call::Reset);
    }
    if words::same(word, b"forecast") {
        return Command::Forecast;
    }
    if words::same(word, b"part") {
        return Command::Part;
    }
    Command::Bad
}

// The command of a word and a number, which another word spells; `replay` is not looked for.
fn with_number(word: &[u8], n: u32) -> Command
    requires { «same_text» word.now (text "replay") ≡ false }
    ensures by_index { (a : List ℕ) → number_of a ≡ Some n → result ≡ look_up table word.now (a ∷ []) }
    ensures result_value { beside result ≡ 0 }
{
    if words::same(word, b"ticks") {
        if n == 0 {
            return Command::Bad;
        }
        return Command::Step(Call::Ticks(n));
    }
    if words::same(word, b"level") {
        return Command::Level(n);
    }
    if words::same(word, b"run") {
        return Command::Run(n);
    }
    if words::same(word, b"jump") {
        return Command::Jump(n);
    }
    if words::same(word, b"jumprun") {
        return Command::JumpRun(n);
    }
    if 255 < n {
        return Command::Bad;
    }
    let b = n as u8;
    if words::same(word, b"read") {
        return Command::Step(Call::Read(b));
    }
    if words::same(word, b"sin") {
        return Command::Step(Call::Sin(b));
    }
    if words::same(word, b"modem") {
        return Command::Step(Call::Modem(b));
    }
    Command::Bad
}

// The two numbers of a line, neither above the most.
fn two_numbers(numbers: &[u8], most: u32) -> Option<(u32, u32)>
    ensures by_index { (f : ℕ → ℕ → Command) → paired f result ≡ two 0 most f («words_of» numbers.now) }
    ensures result_value { at_most most result ≡ true }
{
    let end = words::word_end(numbers, 0);
    if end == numbers.len() {
        return None;
    }
    let a = decimal::number_of(&numbers[..end])?;
    if most < a {
        return None;
    }
    let next = end + 1;
    let b = decimal::number_of(&numbers[next..])?;
    if most < b {
        return None;
    }
    Some((a, b))
}

// The command `write` with these numbers. Each command below has its own row of the table in its contract.
fn write(numbers: &[u8]) -> Command
    ensures value { result ≡ look_up table (text "write") («words_of» numbers.now) }
    ensures result_value { beside result ≡ 0 }
{
    match two_numbers(numbers, 255) {
        Some((a, b)) => Command::Step(Call::Write(a as u8, b as u8)),
        None => Command::Bad,
    }
}

// The command `divisor` with these numbers.
fn divisor(numbers: &[u8]) -> Command
    ensures value { result ≡ look_up table (text "divisor") («words_of» numbers.now) }
    ensures result_value { beside result ≡ 0 }
{
    match two_numbers(numbers, u32::MAX) {
        Some((clock, rate)) => Command::Divisor(clock, rate),
        None => Command::Bad,
    }
}

// Reads the numbers of a line into `to`, and answers how many they are: none where one is no number,
// or where they are more than it has places.
fn read_numbers(numbers: &[u8], to: &mut [u32]) -> Option<usize>
    ensures value { result ≡ numbers_in (length to.old) («words_of» numbers.now) }
    ensures lower_bound { IfSome result (λ n. 0 < n) }
    ensures upper_bound { IfSome result (λ n. n ≤ length to.old) }
    ensures to_after { IfSome result (λ n. take n to.new ≡ take n (values_of («words_of» numbers.now))) }
{
    let mut at: usize = 0;
    for i in 0..to.len() {
        let end = words::word_end(numbers, at);
        to[i] = decimal::number_of(&numbers[at..end])?;
        if end == numbers.len() {
            return Some(i + 1);
        }
        at = end + 1;
    }
    None
}

// The command `load` with these numbers, which are then in `to`.
fn load(numbers: &[u8], to: &mut [u32; MOST_NUMBERS]) -> Command
    ensures value { result ≡ look_up table (text "load") («words_of» numbers.now) }
    ensures result_bound { beside result ≤ most_numbers }
    ensures to_after { take (beside result) to.new ≡ take (beside result) (values_of («words_of» numbers.now)) }
{
    match read_numbers(numbers, to) {
        Some(n) if n == numbers::COUNT => Command::Load,
        _ => Command::Bad,
    }
}

// The command `replay` with these numbers, which are then in `to`.
fn replay(numbers: &[u8], to: &mut [u32; MOST_NUMBERS]) -> Command
    ensures value { result ≡ look_up table (text "replay") («words_of» numbers.now) }
    ensures result_bound { beside result ≤ most_numbers }
    ensures to_after { take (beside result) to.new ≡ take (beside result) (values_of («words_of» numbers.now)) }
{
    let Some(n) = read_numbers(numbers, to) else {
        return Command::Bad;
    };
    let version = to[0];
    if MOST_VERSION < version {
        return Command::Bad;
    }
    let records = n - 1;
    if MOST_RECORDS < records {
        return Command::Bad;
    }
    Command::Replay(version, records)
}

// The command `expect` with these numbers, which are then in `to`.
fn expect(numbers: &[u8], to: &mut [u32; MOST_NUMBERS]) -> Command
    ensures value { result ≡ look_up table (text "expect") («words_of» numbers.now) }
    ensures result_bound { beside result ≤ most_numbers }
    ensures to_after { take (beside result) to.new ≡ take (beside result) (values_of («words_of» numbers.now)) }
{
    let Some(n) = read_numbers(numbers, to) else {
        return Command::Bad;
    };
    if n < 2 {
        return Command::Bad;
    }
    let version = to[0];
    if MOST_VERSION < version {
        return Command::Bad;
    }
    let room = to[1];
    if MOST_ROOM < room {
        return Command::Bad;
    }
    Command::Expect(version, room as usize, n - 2)
}

// The command of a line, which has no newline. The numbers that stand beside it are in `to`.
pub fn command_of(line: &[u8], to: &mut [u32; MOST_NUMBERS]) -> Command
    ensures value { result ≡ command_of line.now }
    ensures result_bound { beside result ≤ most_numbers }
    ensures to_after { take (beside result) to.new ≡ operands_of line.now }
{
    let end = words::word_end(line, 0);
    let word = &line[..end];
    if end == line.len() {
        return bare(word);
    }
    let next = end + 1;
    let numbers = &line[next..];
    if words::same(word, b"write") {
        return write(numbers);
    }
    if words::same(word, b"load") {
        return load(numbers, to);
    }
    if words::same(word, b"divisor") {
        return divisor(numbers);
    }
    if words::same(word, b"replay") {
        return replay(numbers, to);
    }
    if words::same(word, b"expect") {
        return expect(numbers, to);
    }
    match decimal::number_of(numbers) {
        Some(n) => with_number(word, n),
        None => Command::Bad,
    }
}
