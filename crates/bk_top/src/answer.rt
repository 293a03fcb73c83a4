//! What the program makes of its command and its input.

ghost use Rattle.std.specs.Prelude.{◌≡◌, None, IfOk, IfErr};
ghost use Rattle.bk_top.specs.Commands.{compile_row, check_row, run_row, evaluate_row, seen_call, seen_request, seen, AreWorkers, IsInRange};
ghost use Rattle.bk_top.specs.Answer.{Makes, Stems, ReadsInput, ReadsExtra, Stream, stream};

use crate::command::call::Call;
use crate::command::{Command, Request};
use crate::refusal::Refusal;
use crate::rows::check::check;
use crate::rows::compile::compile;
use crate::rows::evaluate::evaluate;
use crate::rows::extra::extra_rules;
use crate::rows::generate::generated_text;
use crate::rows::input::{OBJECT_LIMIT, TEXT_LIMIT, bytes_of};
use crate::rows::load::load;
use crate::rows::rules::rules_listing;
use crate::rows::run::run;
use bk_io::{Gate, Source};
use bk_ops::Target;
use std::alloc::Global;
use std::thread::Threads;

/// `compile`, from the input and the extra rules, which are read first.
fn answer_compile<R: Threads + Sync, S: Source, X: Source, G: Gate + Sync>(
    rt: &R,
    alloc: Global,
    request: Request<'_>,
    input: &mut S,
    extra: &mut X,
    gate: &G,
) -> Result<Vec<u8>, Refusal>
    requires { AreWorkers request.workers }
    ensures made { IfOk result (λ bytes. Makes (compile_row (seen_request request.entry)) (S.left input.old) (X.left extra.old) bytes.items) }
    ensures cause { IfErr result (Stems (compile_row (seen_request request.entry)) (stream (S.left input.old) (S.faults input.old) (S.faults input.new)) (stream (X.left extra.old) (X.faults extra.old) (X.faults extra.new))) }
    ensures no_extra { (ReadsExtra (compile_row (seen_request request.entry)) → ⊥) → extra.new ≡ extra.old }
{
    let rules = extra_rules(alloc, request.rules, extra)?;
    let text = bytes_of(alloc, input, TEXT_LIMIT)?;
    compile(rt, alloc, &text, request, &rules, gate)
}

/// `check`, from the input.
fn answer_check<S: Source>(alloc: Global, input: &mut S, target: Target) -> Result<Vec<u8>, Refusal>
    ensures made { IfOk result (λ bytes. Makes (check_row target) (S.left input.old) None bytes.items) }
    ensures cause { IfErr result (λ refusal. (x : Stream) → Stems (check_row target) (stream (S.left input.old) (S.faults input.old) (S.faults input.new)) x refusal) }
{
    let text = bytes_of(alloc, input, TEXT_LIMIT)?;
    check(alloc, &text, target)
}

/// `run`, from the input.
fn answer_run<S: Source>(alloc: Global, input: &mut S, call: Call<'_>) -> Result<Vec<u8>, Refusal>
    ensures made { IfOk result (λ bytes. Makes (run_row (seen_call call.entry)) (S.left input.old) None bytes.items) }
    ensures cause { IfErr result (λ refusal. (x : Stream) → Stems (run_row (seen_call call.entry)) (stream (S.left input.old) (S.faults input.old) (S.faults input.new)) x refusal) }
{
    let object = bytes_of(alloc, input, OBJECT_LIMIT)?;
    run(alloc, &object, call)
}

/// `eval`, from the input.
fn answer_evaluate<S: Source>(
    alloc: Global,
    input: &mut S,
    target: Target,
    call: Call<'_>,
) -> Result<Vec<u8>, Refusal>
    ensures made { IfOk result (λ bytes. Makes (evaluate_row target (seen_call call.entry)) (S.left input.old) None bytes.items) }
    ensures cause { IfErr result (λ refusal. (x : Stream) → Stems (evaluate_row target (seen_call call.entry)) (stream (S.left input.old) (S.faults input.old) (S.faults input.new)) x refusal) }
{
    let text = bytes_of(alloc, input, TEXT_LIMIT)?;
    evaluate(alloc, &text, target, call)
}

/// The bytes that a command asks for.
pub fn answer<R: Threads + Sync, S: Source, X: Source, G: Gate + Sync>(
    rt: &R,
    alloc: Global,
    command: Command<'_>,
    input: &mut S,
    extra: &mut X,
    gate: &G,
) -> Result<Vec<u8>, Refusal>
    requires { IsInRange (seen command) }
    ensures made { IfOk result (λ bytes. Makes (seen command.entry) (S.left input.old) (X.left extra.old) bytes.items) }
    ensures cause { IfErr result (Stems (seen command.entry) (stream (S.left input.old) (S.faults input.old) (S.faults input.new)) (stream (X.left extra.old) (X.faults extra.old) (X.faults extra.new))) }
    ensures unread { (ReadsInput (seen command.entry) → ⊥) → input.new ≡ input.old }
    ensures no_extra { (ReadsExtra (seen command.entry) → ⊥) → extra.new ≡ extra.old }
{
    match command {
        Command::Compile(request) => answer_compile(rt, alloc, request, input, extra, gate),
        Command::Check(target) => answer_check(alloc, input, target),
        Command::Run(call) => answer_run(alloc, input, call),
        Command::Evaluate(target, call) => answer_evaluate(alloc, input, target, call),
        Command::Generate(count) => match generated_text(alloc, count) {
            Ok(text) => Ok(text),
            Err(_) => Err(Refusal::Memory),
        },
        Command::Rules => match rules_listing(alloc) {
            Ok(text) => Ok(text),
            Err(_) => Err(Refusal::Memory),
        },
        Command::Load(trial) => load(rt, alloc, trial, gate),
    }
}
