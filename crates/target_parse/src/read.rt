//! Reads a target from the left.
ghost use Rattle.std.specs.Prelude.{◌≡◌, ◌≢◌, ◌++◌, ◌∷◌, [], IfErr, IfOk, OnOk, IsAscii, Ok, Err, ◌<◌, ◌≤◌, length, suc};
ghost use Rattle.target_parse.specs.Bytes.{most_depth};
ghost use Rattle.target_parse.specs.Reading.{NextFails, NextIs, all_seen, argument_end, call_of, read_argument, read_inside, read_path, read_plain, read_quoted, read_stretch, read_target, read_whole, seen};
ghost use Rattle.target_parse.specs.Target.{Reads, SaysNone};
ghost use Rattle.target_parse.specs.Tree.{depth, tree_of};
ghost use Rattle.target_parse.specs.declared.fault.Stop.TheVariants.{NoMemory as StopNoMemory};
ghost use Rattle.target_parse.specs.declared.fault.TargetFault.TheVariants.{NoMemory};

use crate::bytes::{
    behind_byte, cut_stretch, first_quote, flag_of, in_call, is_number, place_of_byte, skip_blanks,
};
use crate::expr::Expr;
use crate::fault::{Stop, TargetFault, fault_in, glob_stop};
use crate::word::Word;
use path_glob::Glob;
use std::alloc::{AllocError, Global};

// The most bytes of a target.
const MOST_TARGET_BYTES: usize = 16_384;

// How deep calls may nest.
const MOST_DEPTH: usize = 32;

// What was read of the front of a text, and what follows it.
#[derive(Drop)]
pub(crate) struct Taken<'a> {
    pub(crate) expr: Expr,
    pub(crate) rest: &'a [u8],
}

// The arguments of a call, and what follows its last bracket.
#[derive(Drop)]
pub(crate) struct Arguments<'a> {
    pub(crate) items: Vec<Expr>,
    pub(crate) rest: &'a [u8],
}

// An argument of a call: whether it is the last, and what stands behind its comma or bracket.
#[derive(Drop)]
pub(crate) struct Next<'a> {
    pub(crate) expr: Expr,
    pub(crate) is_last: bool,
    pub(crate) rest: &'a [u8],
}

// The end of an argument: whether it is the last of its call, and what stands behind the comma or bracket.
#[derive(Clone, Copy)]
pub(crate) struct End<'a> {
    pub(crate) is_last: bool,
    pub(crate) rest: &'a [u8],
}

/// What a target says, read in one walk over its bytes from the left.
///
/// # Errors
///
/// `TooLong` of a text of more than 16,384 bytes; else the first fault from the left.
pub fn parse(alloc: Global, text: &[u8]) -> Result<Expr, TargetFault>
    ensures ok { IfOk result (λ expr. read_target text.now ≡ Ok (tree_of expr)) }
    ensures err { IfErr result (λ fault. fault ≢ NoMemory → read_target text.now ≡ Err fault) }
    ensures reads { IfOk result (λ expr.
        Reads text.now (tree_of expr) × (depth (tree_of expr) ≤ most_depth)) }
    ensures refused { IfErr result (λ fault. fault ≢ NoMemory → SaysNone text.now) }
{
    read_text(alloc, text)
}

// The target that a text is, by the definition of the reading.
#[tactic(auto, unfolding(crate::specs::Reading::read_target))]
fn read_text(alloc: Global, text: &[u8]) -> Result<Expr, TargetFault>
    ensures ok { IfOk result (λ expr. read_target text.now ≡ Ok (tree_of expr)) }
    ensures err { IfErr result (λ fault. fault ≢ NoMemory → read_target text.now ≡ Err fault) }
{
    if text.len() > MOST_TARGET_BYTES {
        return Err(TargetFault::TooLong);
    }
    match read_whole(alloc, text) {
        Ok(expr) => return Ok(expr),
        Err(stop) => return Err(fault_in(text.len(), stop)),
    }
}

// The whole target.
#[tactic(auto, unfolding(crate::specs::Reading::read_whole))]
fn read_whole(alloc: Global, text: &[u8]) -> Result<Expr, Stop>
    ensures ok { IfOk result (λ expr. read_whole text.now ≡ Ok (tree_of expr)) }
    ensures err { IfErr result (λ stop. stop ≢ StopNoMemory → read_whole text.now ≡ Err stop) }
{
    let found = read_front(alloc, skip_blanks(text))?;
    let rest = skip_blanks(found.rest);
    if !rest.is_empty() {
        return Err(Stop::Left(rest.len()));
    }
    Ok(found.expr)
}

// The call or the path that a target begins with.
#[tactic(auto, using(crate::proofs::LoopLemmas::front_call, crate::proofs::LoopLemmas::front_plain))]
fn read_front<'a>(alloc: Global, text: &'a [u8]) -> Result<Taken<'a>, Stop>
    ensures ok { IfOk result (λ taken.
        read_stretch read_path (read_inside most_depth) text.now ≡ Ok (seen taken)) }
    ensures err { IfErr result (λ stop. stop ≢ StopNoMemory
        → read_stretch read_path (read_inside most_depth) text.now ≡ Err stop) }
{
    let stretch = cut_stretch(text);
    match in_call(stretch.text, stretch.rest) {
        Some(inside) => return read_call(alloc, stretch.text, inside, MOST_DEPTH),
        None => return read_path(alloc, stretch.text, stretch.rest),
    }
}

// An argument, and blanks or none before it; calls may still nest this deep.
#[cycle(read)]
#[tactic(auto, using(crate::proofs::LoopLemmas::argument_quoted, crate::proofs::LoopLemmas::argument_call, crate::proofs::LoopLemmas::argument_plain))]
fn read_argument<'a>(alloc: Global, text: &'a [u8], levels: usize) -> Result<Taken<'a>, Stop>
    ensures ok { IfOk result (λ taken. read_argument levels text.now ≡ Ok (seen taken)) }
    ensures err { IfErr result (λ stop. stop ≢ StopNoMemory
        → read_argument levels text.now ≡ Err stop) }
{
    let text = skip_blanks(text);
    if let Some(quote) = first_quote(text) {
        return read_quoted(alloc, quote.byte, quote.rest);
    }
    let stretch = cut_stretch(text);
    match in_call(stretch.text, stretch.rest) {
        Some(inside) => return read_call(alloc, stretch.text, inside, levels),
        None => return read_plain(alloc, stretch.text, stretch.rest),
    }
}

// The call with this name, from behind its bracket on.
#[cycle(read)]
#[tactic(auto, using(crate::proofs::LoopLemmas::call_too_deep, crate::proofs::LoopLemmas::call_within))]
fn read_call<'a>(
    alloc: Global,
    name: &'a [u8],
    inside: &'a [u8],
    levels: usize,
) -> Result<Taken<'a>, Stop>
    requires { IsAscii name.now }
    ensures ok { IfOk result (λ taken.
        call_of name.now (read_inside levels inside.now) ≡ Ok (seen taken)) }
    ensures err { IfErr result (λ stop. stop ≢ StopNoMemory
        → call_of name.now (read_inside levels inside.now) ≡ Err stop) }
{
    if levels == 0 {
        return Err(Stop::TooDeep);
    }
    let arguments = read_arguments(alloc, inside, levels - 1)?;
    let name = ascii_word(alloc, name)?;
    Ok(Taken {
        expr: Expr::Call(name, arguments.items),
        rest: arguments.rest,
    })
}

// The arguments of a call, up to its last bracket.
#[cycle(read)]
#[tactic(auto, using(crate::proofs::LoopLemmas::loop_start, crate::proofs::LoopLemmas::loop_more, crate::proofs::LoopLemmas::loop_last, crate::proofs::LoopLemmas::loop_fails))]
fn read_arguments<'a>(alloc: Global, text: &'a [u8], levels: usize) -> Result<Arguments<'a>, Stop>
    ensures ok { IfOk result (λ found. read_inside (suc levels) text.now ≡ Ok (all_seen found)) }
    ensures err { IfErr result (λ stop. stop ≢ StopNoMemory
        → read_inside (suc levels) text.now ≡ Err stop) }
{
    let mut items = Vec::new(alloc);
    let mut rest = text;
    loop {
        let next = read_next(alloc, rest, levels)?;
        push(&mut items, next.expr)?;
        rest = next.rest;
        if next.is_last {
            return Ok(Arguments { items, rest });
        }
    }
}

// The next argument of a call.
#[cycle(read)]
#[tactic(auto, using(crate::proofs::LoopLemmas::argument_more, crate::proofs::LoopLemmas::argument_fails, crate::proofs::LoopLemmas::end_fails, crate::proofs::LoopLemmas::next_shorter))]
fn read_next<'a>(alloc: Global, text: &'a [u8], levels: usize) -> Result<Next<'a>, Stop>
    ensures ok { IfOk result (λ next. NextIs levels text.now next) }
    ensures err { IfErr result (λ stop. stop ≢ StopNoMemory → NextFails levels text.now stop) }
    ensures shorter { IfOk result (λ next. length next.rest.now < length text.now) }
{
    let argument = read_argument(alloc, text, levels)?;
    let end = argument_end(argument.rest)?;
    Ok(Next {
        expr: argument.expr,
        is_last: end.is_last,
        rest: end.rest,
    })
}

fn push(items: &mut Vec<Expr>, expr: Expr) -> Result<(), AllocError>
    ensures { OnOk result (items.new.items ≡ items.old.items ++ expr ∷ []) }
{
    items.push(expr)?;
    Ok(())
}

// The end of an argument, and blanks or none before it.
fn argument_end(text: &[u8]) -> Result<End<'_>, Stop>
    ensures ok { IfOk result (λ end. argument_end text.now ≡ Ok (end.is_last, end.rest.now)) }
    ensures err { IfErr result (λ stop. argument_end text.now ≡ Err stop) }
{
    let text = skip_blanks(text);
    let Some((first, rest)) = text.split_first() else {
        return Err(Stop::Left(0));
    };
    match *first {
        b',' => {
            return Ok(End {
                is_last: false,
                rest,
            });
        }
        b')' => {
            return Ok(End {
                is_last: true,
                rest,
            });
        }
        _ => return Err(Stop::Left(rest.len() + 1)),
    }
}

// A stretch in an argument.
#[tactic(auto, unfolding(crate::specs::Reading::read_plain))]
fn read_plain<'a>(alloc: Global, stretch: &'a [u8], rest: &'a [u8]) -> Result<Taken<'a>, Stop>
    requires { IsAscii stretch.now }
    ensures ok { IfOk result (λ taken. read_plain stretch.now rest.now ≡ Ok (seen taken)) }
    ensures err { IfErr result (λ stop. stop ≢ StopNoMemory
        → read_plain stretch.now rest.now ≡ Err stop) }
{
    if is_number(stretch) {
        let expr = Expr::Number(ascii_word(alloc, stretch)?);
        return Ok(Taken { expr, rest });
    }
    if let Some(flag) = flag_of(stretch) {
        let expr = Expr::Flag(flag);
        return Ok(Taken { expr, rest });
    }
    read_path(alloc, stretch, rest)
}

// A stretch as a path.
#[tactic(auto, unfolding(crate::specs::Reading::read_path))]
fn read_path<'a>(alloc: Global, stretch: &'a [u8], rest: &'a [u8]) -> Result<Taken<'a>, Stop>
    ensures ok { IfOk result (λ taken. read_path stretch.now rest.now ≡ Ok (seen taken)) }
    ensures err { IfErr result (λ stop. stop ≢ StopNoMemory
        → read_path stretch.now rest.now ≡ Err stop) }
{
    match Glob::new(alloc, stretch) {
        Ok(glob) => {
            let expr = Expr::Path(glob);
            return Ok(Taken { expr, rest });
        }
        Err(fault) => return Err(glob_stop(stretch.len() + rest.len(), fault)),
    }
}

// A text argument, from behind its first quote on.
#[tactic(auto, unfolding(crate::specs::Reading::read_quoted))]
fn read_quoted<'a>(alloc: Global, quote: u8, text: &'a [u8]) -> Result<Taken<'a>, Stop>
    ensures ok { IfOk result (λ taken. read_quoted quote text.now ≡ Ok (seen taken)) }
    ensures err { IfErr result (λ stop. stop ≢ StopNoMemory
        → read_quoted quote text.now ≡ Err stop) }
{
    let (piece, behind) = text.split_at(place_of_byte(text, quote));
    let piece = match str::from_utf8(piece) {
        Ok(piece) => piece,
        Err(fault) => return Err(Stop::Left(text.len().saturating_sub(fault.valid_up_to()))),
    };
    let Some(rest) = behind_byte(behind, quote) else {
        return Err(Stop::Left(0));
    };
    let expr = Expr::Text(quote, Word::new(alloc, piece)?);
    Ok(Taken { expr, rest })
}

// The word with this text.
fn ascii_word(alloc: Global, text: &[u8]) -> Result<Word, AllocError>
    requires { IsAscii text.now }
    ensures { IfOk result (λ word. word ≡ text.now) }
{
    let Ok(text) = str::from_utf8(text) else {
        unreachable!()
    };
    Word::new(alloc, text)
}
