// The rest of a block, and the way out of it.
ghost use Rattle.std.specs.Prelude.{◌≡◌, ◌+◌, ◌<◌, ◌↔◌, ◌++◌, IfOk, OnOk, IsTrue, Some, length, drop, slice_get, slice_set};
ghost use Rattle.bk_func.specs.Records.{BlockRecord};
ghost use Rattle.bk_mean.specs.declared.ready.ReadyBlock.{ReadyBlock as Course};
ghost use Rattle.bk_mean.specs.Turned.{Turned, TurnAt};
ghost use Rattle.bk_mean.specs.Left.{given_words, going, phi_number as meant_phi_number, phi_numbers, put_all, results_of, Begins, Crosses, Enters, Leaves, Goes, Ran, GoesOn};

use crate::machine::Activation;
use crate::number::{arg, at, push_numbers};
use crate::prepare::without_memory;
use crate::ready::{Edge, Ready, ReadyBlock, ReadyValue};
use crate::step::{After, CallWords, Given, set, step};
use crate::symbols::Callee;
use crate::words::push_words;
use bk_func::{Block, Func, Kind, Sig, TRAP_EXIT};
use bk_ops::Target;
use std::alloc::AllocError;

/// What a run comes to.
#[derive(Clone, Copy)]
pub(crate) enum Next {
    /// A block is entered.
    Enter,
    /// A function is called, on the numbers at hand or on words that were written.
    Call { callee: Callee, on_words: bool },
    Trap(u8),
    Wild(u64),
    /// The call returned; the results are at hand.
    Return,
}

/// A function that is run.
#[derive(Clone, Copy)]
pub(crate) struct Scene<'a> {
    pub(crate) target: Target,
    pub(crate) func: &'a Func,
    pub(crate) ready: &'a Ready,
}

/// Does the rest of the block that a call is in, and leaves it.
pub(crate) fn go_on(
    scene: Scene<'_>,
    call: &mut Activation,
    numbers: &mut [u64],
    window: &mut Vec<u8>,
    hand: &mut Vec<u64>,
) -> Result<Next, AllocError>
    ensures { IfOk result (λ next. (b : BlockRecord) (c : Course) → slice_get scene.entry.func.now.blocks call.old.block ≡ Some b → slice_get scene.entry.ready.now.blocks.items call.old.block ≡ Some c → length scene.entry.ready.now.values.items < length numbers.old → GoesOn scene.entry.target scene.entry.func.now scene.entry.ready.now b c (record { call = call.old; numbers = numbers.old; hand = hand.old.items }) (record { call = call.new; numbers = numbers.new; hand = hand.new.items }) window.old.items window.new.items next) }
{
    let func = scene.func;
    let ready = scene.ready;
    let (Some(block), Some(course)) = (func.blocks.get(call.block), ready.blocks.get(call.block))
    else {
        return Ok(Next::Trap(TRAP_EXIT));
    };
    let values = ready.values.len();
    if numbers.len() <= values {
        return Ok(Next::Trap(TRAP_EXIT));
    }
    let (numbers, args) = numbers.split_at_mut(values + 1);
    let given = Given {
        target: scene.target,
        args,
    };
    run_block(scene, block, course, call, given, numbers, window, hand)
}

/// Does the rest of a block, and leaves it.
#[allow(clippy::too_many_arguments)]
fn run_block(
    scene: Scene<'_>,
    block: &Block,
    course: &ReadyBlock,
    call: &mut Activation,
    given: Given<'_>,
    numbers: &mut [u64],
    window: &mut Vec<u8>,
    hand: &mut Vec<u64>,
) -> Result<Next, AllocError>
    ensures { IfOk result (λ next. Ran given.entry.target scene.entry.func.now scene.entry.ready.now block.now course.now given.entry.args.now (record { call = call.old; numbers = numbers.old; hand = hand.old.items }) (record { call = call.new; numbers = numbers.new; hand = hand.new.items }) window.old.items window.new.items next) }
{
    let ready = scene.ready;
    let after = turns(block, course, &ready.values, call, given, numbers, window)?;
    let next = follow(after, scene, block, course, call, numbers, hand)?;
    Ok(next)
}

/// Goes where what came after the last value leads.
fn follow(
    after: After,
    scene: Scene<'_>,
    block: &Block,
    course: &ReadyBlock,
    call: &mut Activation,
    numbers: &mut [u64],
    hand: &mut Vec<u64>,
) -> Result<Next, AllocError>
    ensures { IfOk result (λ next. Goes after block.now.kind scene.entry.func.now.sig scene.entry.ready.now course.now (record { call = call.old; numbers = numbers.old; hand = hand.old.items }) (record { call = call.new; numbers = numbers.new; hand = hand.new.items }) next) }
{
    let ready = scene.ready;
    match after {
        After::On => leave(scene, block, course, call, numbers, hand),
        After::Trap(number) => Ok(Next::Trap(number)),
        After::Wild(address) => Ok(Next::Wild(address)),
        After::Call => begin_call(&ready.values, call, numbers, hand),
    }
}

/// The values of the block in their order, from the next one on.
fn turns(
    block: &Block,
    course: &ReadyBlock,
    values: &[ReadyValue],
    call: &mut Activation,
    given: Given<'_>,
    numbers: &mut [u64],
    window: &mut Vec<u8>,
) -> Result<After, AllocError>
    ensures turned { IfOk result (λ after. Turned (record { target = given.entry.target; args = given.entry.args.now }) block.now course.now.first values.now (drop call.old.next course.now.order.items) (record { numbers = numbers.old; window = window.old.items; words = call.old.words }) (record { numbers = numbers.new; window = window.new.items; words = call.new.words }) (drop call.new.next course.now.order.items) call.new.called_by after) }
    ensures call { OnOk result (call.new ≡ going call.old call.new.next call.new.called_by call.new.words) }
{
    for at in call.next..course.order.len() {
        call.next = at + 1;
        let local = course.order[at];
        let turn = turn(
            block,
            course.first,
            values,
            local,
            given,
            numbers,
            window,
            &mut call.words,
        )?;
        if let Some((place, after)) = turn {
            call.called_by = place;
            if !is_on(after) {
                return Ok(after);
            }
        }
    }
    Ok(After::On)
}

fn is_on(after: After) -> bool
    ensures { IsTrue result ↔ (after ≡ After.On) }
{
    match after {
        After::On => true,
        _ => false,
    }
}

/// The turn of the value at a place of the block, if there is one, and its place in the function.
#[allow(clippy::too_many_arguments)]
fn turn(
    block: &Block,
    first: usize,
    values: &[ReadyValue],
    local: usize,
    given: Given<'_>,
    numbers: &mut [u64],
    window: &mut Vec<u8>,
    words: &mut CallWords,
) -> Result<Option<(usize, After)>, AllocError>
    ensures { IfOk result (λ turn. TurnAt (record { target = given.entry.target; args = given.entry.args.now }) block.now first values.now local (record { numbers = numbers.old; window = window.old.items; words = words.old }) (record { numbers = numbers.new; window = window.new.items; words = words.new }) turn) }
{
    let Some(value) = block.values.get(local) else {
        return Ok(None);
    };
    let Some(place) = first.checked_add(local) else {
        return Ok(None);
    };
    let Some(ready) = values.get(place) else {
        return Ok(None);
    };
    let after = step(value, ready, place, given, numbers, window, words)?;
    Ok(Some((place, after)))
}

/// Takes the numbers of a call's arguments at hand.
fn begin_call(
    values: &[ReadyValue],
    call: &Activation,
    numbers: &[u64],
    hand: &mut Vec<u64>,
) -> Result<Next, AllocError>
    ensures { IfOk result (λ next. Begins (slice_get values.now call.now.called_by) (record { call = call.now; numbers = numbers.now; hand = hand.old.items }) (record { call = call.now; numbers = numbers.now; hand = hand.new.items }) next) }
{
    let Some(ready) = values.get(call.called_by) else {
        return Ok(Next::Trap(TRAP_EXIT));
    };
    hand.clear();
    push_numbers(hand, numbers, without_memory(ready.args.as_slice()))?;
    Ok(Next::Call {
        callee: ready.callee,
        on_words: ready.on_words,
    })
}

/// Leaves the block by its kind.
fn leave(
    scene: Scene<'_>,
    block: &Block,
    course: &ReadyBlock,
    call: &mut Activation,
    numbers: &mut [u64],
    hand: &mut Vec<u64>,
) -> Result<Next, AllocError>
    ensures { IfOk result (λ next. Leaves block.now.kind scene.entry.func.now.sig scene.entry.ready.now course.now (record { call = call.old; numbers = numbers.old; hand = hand.old.items }) (record { call = call.new; numbers = numbers.new; hand = hand.new.items }) next) }
{
    match block.kind {
        Kind::Plain | Kind::First => cross(scene.ready, course.edge, call, numbers, hand),
        Kind::If => {
            let edge = if at(numbers, course.control) % 2 == 0 {
                course.other
            } else {
                course.edge
            };
            cross(scene.ready, edge, call, numbers, hand)
        }
        Kind::Ret => {
            take_results(scene, course, call, numbers, hand)?;
            Ok(Next::Return)
        }
        Kind::Exit => Ok(Next::Trap(TRAP_EXIT)),
    }
}

/// Enters the block at the end of an edge.
fn cross(
    ready: &Ready,
    edge: Edge,
    call: &mut Activation,
    numbers: &mut [u64],
    hand: &mut Vec<u64>,
) -> Result<Next, AllocError>
    ensures { IfOk result (λ next. Crosses ready.now edge.block edge.place (record { call = call.old; numbers = numbers.old; hand = hand.old.items }) (record { call = call.new; numbers = numbers.new; hand = hand.new.items }) next) }
{
    match edge.block {
        None => Ok(Next::Trap(TRAP_EXIT)),
        Some(block) => enter(ready, block, edge.place, call, numbers, hand),
    }
}

/// Enters a block by the edge at a place; its phis take their numbers all at once.
fn enter(
    ready: &Ready,
    block: usize,
    edge: usize,
    call: &mut Activation,
    numbers: &mut [u64],
    hand: &mut Vec<u64>,
) -> Result<Next, AllocError>
    ensures { IfOk result (λ next. Enters ready.now block edge (slice_get ready.now.blocks.items block) (record { call = call.old; numbers = numbers.old; hand = hand.old.items }) (record { call = call.new; numbers = numbers.new; hand = hand.new.items }) next) }
{
    let Some(course) = ready.blocks.get(block) else {
        return Ok(Next::Trap(TRAP_EXIT));
    };
    hand.clear();
    take_phis(
        hand,
        course.first,
        &ready.values,
        numbers,
        edge,
        &course.phis,
    )?;
    put_phis(numbers, course.first, &course.phis, hand);
    call.block = block;
    call.next = 0;
    Ok(Next::Enter)
}

/// Appends the numbers that the phis at places of a block take by an edge.
fn take_phis(
    list: &mut Vec<u64>,
    first: usize,
    values: &[ReadyValue],
    numbers: &[u64],
    edge: usize,
    phis: &[usize],
) -> Result<(), AllocError>
    ensures { OnOk result (list.new.items ≡ list.old.items ++ phi_numbers first values.now numbers.now edge phis.now) }
{
    for phi in phis {
        list.push(phi_number(values, first, *phi, edge, numbers))?;
    }
    Ok(())
}

/// The number that a phi takes by an edge.
fn phi_number(values: &[ReadyValue], first: usize, phi: usize, edge: usize, numbers: &[u64]) -> u64
    ensures { result ≡ meant_phi_number (slice_get values.now (first + phi)) numbers.now edge }
{
    let Some(place) = first.checked_add(phi) else {
        return 0;
    };
    match values.get(place) {
        Some(ready) => arg(numbers, ready.args.as_slice(), edge),
        None => 0,
    }
}

/// Puts the numbers of the phis at places of a block in their places.
fn put_phis(numbers: &mut [u64], first: usize, phis: &[usize], given: &[u64])
    ensures { numbers.new ≡ put_all first phis.now given.now numbers.old }
{
    for (index, phi) in phis.iter().enumerate() {
        let Some(number) = given.get(index) else {
            break;
        };
        put(numbers, first, *phi, *number);
    }
}

/// Puts a number in the place that is so many behind the first, if that is there.
pub(crate) fn put(numbers: &mut [u64], first: usize, local: usize, number: u64)
    ensures { numbers.new ≡ slice_set numbers.old (first + local) number }
{
    if let Some(place) = first.checked_add(local) {
        set(numbers, place, number);
    }
}

/// Takes the results of the function at hand.
fn take_results(
    scene: Scene<'_>,
    course: &ReadyBlock,
    call: &Activation,
    numbers: &[u64],
    hand: &mut Vec<u64>,
) -> Result<(), AllocError>
    ensures { OnOk result (hand.new.items ≡ results_of (slice_get scene.entry.ready.now.values.items course.now.control) numbers.now scene.entry.func.now.sig call.now.words) }
{
    let func = scene.func;
    let ready = scene.ready;
    hand.clear();
    match ready.values.get(course.control) {
        Some(control) if control.gives_results => {
            push_numbers(hand, numbers, without_memory(control.args.as_slice()))
        }
        _ => give_words(hand, &func.sig, &call.words),
    }
}

/// Appends the words that a call gives back: those in registers, then those that were written.
fn give_words(list: &mut Vec<u64>, sig: &Sig, words: &CallWords) -> Result<(), AllocError>
    ensures { OnOk result (list.new.items ≡ list.old.items ++ given_words sig.now words.now) }
{
    list.extend_from_slice(&words.regs)?;
    let regs = words.regs.len();
    let from = sig.args.len() as u64 + regs as u64;
    push_words(
        list,
        &words.back,
        from,
        sig.results.len().saturating_sub(regs) as u64,
    )
}
