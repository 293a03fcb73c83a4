//! The rows of words.

ghost use Rattle.std.specs.Prelude.{◌≡◌, ◌↔◌, ◌<◌, ◌≤◌, ℕ, ◌∷◌, codes, length, map, string_bytes, IfSome, IfNone, IsTrue};
ghost use Rattle.std.specs.Fmt.{decimal};
ghost use Rattle.bk_top.specs.Commands.{CommandRecord, compile_row, seen, target_word, Asks};

pub mod call;
pub mod number;

use crate::command::call::{Call, call_of};
use crate::command::number::number_of;
use bk_ops::Target;

/// What the words ask for.
#[derive(Clone, Copy)]
pub enum Command<'a> {
    /// `compile TARGET WORKERS [RULES]`: the object of the package that is read.
    Compile(Request<'a>),
    /// `check TARGET`: the counts of the package that is read.
    Check(Target),
    /// `gen N`: the text of a package of N functions that is made by a rule.
    Generate(u64),
    /// `run NAME BOUND ARG..`: how a call of a function of the object that is read ends.
    Run(Call<'a>),
    /// `eval TARGET NAME BOUND ARG..`: how a call of a function of the package that is read ends.
    Evaluate(Target, Call<'a>),
    /// `rules`: the lists of rewrite rules.
    Rules,
    /// `load N TARGET WORKERS`: measures of the object of a package that is made by a rule.
    Load(Trial),
}

/// What is to be compiled, and how.
#[derive(Clone, Copy)]
pub struct Request<'a> {
    pub target: Target,
    /// The count of threads that may be used.
    pub workers: u64,
    /// The word of the extra rules, which may be missing.
    pub rules: &'a [String],
}

/// A package that is made by a rule and compiled.
#[derive(Clone, Copy)]
pub struct Trial {
    /// The count of its functions.
    pub count: u64,
    pub target: Target,
    /// The count of threads that may be used.
    pub workers: u64,
}

/// The most functions of a generated package.
const MOST_FUNCTIONS: u64 = 4096;

/// The most threads.
const MOST_WORKERS: u64 = 64;

fn is_text(word: &String, text: &str) -> bool
    ensures { IsTrue result ↔ string_bytes word.now ≡ text.now }
{
    word.as_str() == text
}

fn target_of(word: &String) -> Option<Target>
    ensures found { IfSome result (λ target. string_bytes word.now ≡ target_word target) }
    ensures none { IfNone result ((target : Target) → string_bytes word.now ≡ target_word target → ⊥) }
{
    if is_text(word, "arm") {
        Some(Target::Arm)
    } else if is_text(word, "riscv64") {
        Some(Target::Riscv64)
    } else {
        None
    }
}

/// The count of threads that a word spells, 1 to 64.
fn workers_of(word: &String) -> Option<u64>
    ensures found { IfSome result (λ n. (string_bytes word.now ≡ decimal n) × (1 ≤ n) × (n ≤ 64)) }
    ensures none { IfNone result ((n : ℕ) → string_bytes word.now ≡ decimal n → 1 ≤ n → n ≤ 64 → ⊥) }
{
    let count = number_of(word)?;
    if 1 <= count && count <= MOST_WORKERS {
        Some(count)
    } else {
        None
    }
}

/// The count of functions that a word spells, 1 to 4,096.
fn count_of(word: &String) -> Option<u64>
    ensures found { IfSome result (λ n. (string_bytes word.now ≡ decimal n) × (1 ≤ n) × (n ≤ 4096)) }
    ensures none { IfNone result ((n : ℕ) → string_bytes word.now ≡ decimal n → 1 ≤ n → n ≤ 4096 → ⊥) }
{
    let count = number_of(word)?;
    if 1 <= count && count <= MOST_FUNCTIONS {
        Some(count)
    } else {
        None
    }
}

fn compile(others: &[String]) -> Option<Command<'_>>
    ensures found { IfSome result (λ c. Asks (codes "compile" ∷ map string_bytes others.now) (seen c)) }
    ensures none { IfNone result ((c : CommandRecord) → Asks (codes "compile" ∷ map string_bytes others.now) c → ⊥) }
{
    match others {
        [target, workers, rules @ ..] => {
            let target = target_of(target)?;
            let workers = workers_of(workers)?;
            request_of(target, workers, rules)
        }
        _ => None,
    }
}

fn request_of(target: Target, workers: u64, rules: &[String]) -> Option<Command<'_>>
    ensures found { IfSome result (λ c. (seen c ≡ compile_row (record { target = target; workers = workers; rules = map string_bytes rules.now })) × (length rules.now ≤ 1)) }
    ensures none { IfNone result (1 < length rules.now) }
{
    if rules.len() > 1 {
        return None;
    }
    Some(Command::Compile(Request {
        target,
        workers,
        rules,
    }))
}

fn check(others: &[String]) -> Option<Command<'_>>
    ensures found { IfSome result (λ c. Asks (codes "check" ∷ map string_bytes others.now) (seen c)) }
    ensures none { IfNone result ((c : CommandRecord) → Asks (codes "check" ∷ map string_bytes others.now) c → ⊥) }
{
    match others {
        [target] => Some(Command::Check(target_of(target)?)),
        _ => None,
    }
}

fn generate(others: &[String]) -> Option<Command<'_>>
    ensures found { IfSome result (λ c. Asks (codes "gen" ∷ map string_bytes others.now) (seen c)) }
    ensures none { IfNone result ((c : CommandRecord) → Asks (codes "gen" ∷ map string_bytes others.now) c → ⊥) }
{
    match others {
        [count] => Some(Command::Generate(count_of(count)?)),
        _ => None,
    }
}

fn run(others: &[String]) -> Option<Command<'_>>
    ensures found { IfSome result (λ c. Asks (codes "run" ∷ map string_bytes others.now) (seen c)) }
    ensures none { IfNone result ((c : CommandRecord) → Asks (codes "run" ∷ map string_bytes others.now) c → ⊥) }
{
    Some(Command::Run(call_of(others)?))
}

fn evaluate(others: &[String]) -> Option<Command<'_>>
    ensures found { IfSome result (λ c. Asks (codes "eval" ∷ map string_bytes others.now) (seen c)) }
    ensures none { IfNone result ((c : CommandRecord) → Asks (codes "eval" ∷ map string_bytes others.now) c → ⊥) }
{
    let (target, words) = others.split_first()?;
    let target = target_of(target)?;
    Some(Command::Evaluate(target, call_of(words)?))
}

fn rules(others: &[String]) -> Option<Command<'_>>
    ensures found { IfSome result (λ c. Asks (codes "rules" ∷ map string_bytes others.now) (seen c)) }
    ensures none { IfNone result ((c : CommandRecord) → Asks (codes "rules" ∷ map string_bytes others.now) c → ⊥) }
{
    match others {
        [] => Some(Command::Rules),
        _ => None,
    }
}

fn load(others: &[String]) -> Option<Command<'_>>
    ensures found { IfSome result (λ c. Asks (codes "load" ∷ map string_bytes others.now) (seen c)) }
    ensures none { IfNone result ((c : CommandRecord) → Asks (codes "load" ∷ map string_bytes others.now) c → ⊥) }
{
    match others {
        [count, target, workers] => Some(Command::Load(Trial {
            count: count_of(count)?,
            target: target_of(target)?,
            workers: workers_of(workers)?,
        })),
        _ => None,
    }
}

/// The command of the words; None where they are in no row.
pub fn command_of(words: &[String]) -> Option<Command<'_>>
    ensures found { IfSome result (λ c. Asks (map string_bytes words.now) (seen c)) }
    ensures none { IfNone result ((c : CommandRecord) → Asks (map string_bytes words.now) c → ⊥) }
{
    let (name, others) = words.split_first()?;
    if is_text(name, "compile") {
        compile(others)
    } else if is_text(name, "check") {
        check(others)
    } else if is_text(name, "gen") {
        generate(others)
    } else if is_text(name, "run") {
        run(others)
    } else if is_text(name, "eval") {
        evaluate(others)
    } else if is_text(name, "rules") {
        rules(others)
    } else if is_text(name, "load") {
        load(others)
    } else {
        None
    }
}
