//! Patterns that are asked whether they are found.
ghost use Rattle.std.specs.Prelude.{◌≡◌, Some, None, IfOk, IfSome, is_some, if◌then◌else◌};
ghost use Rattle.regex.specs.Patterns.{find_str};
ghost use Rattle.regex_compile.specs.Implements.{Implements};
ghost use Rattle.regex_hir.specs.Meaning.{meaning};
ghost use Rattle.regex_hir.specs.Re.{Re};
ghost use Rattle.regex_hir.specs.Text.{is_boundary};
ghost use Rattle.name_pattern.specs.Patterns.{SearchesFor, is_found, is_readable};
ghost use Rattle.name_pattern.specs.PlainTexts.{Asks};

use crate::pattern::{MOST_STATE_BYTES, Pattern};
use crate::plain::Plain;
use regex_compile::compile;
use regex_hir::Hir;
use regex_nfa::Nfa;
use regex_syntax::{Config, Parsed, parse};
use regex_vm::Backtracker;
use std::alloc::{AllocError, Global};
use std::marker::Model;

// What a text is read as, the states by which it is walked, and the text that it asks for if it asks for no more.
#[derive(Drop)]
struct Steps {
    hir: Hir,
    nfa: Nfa,
    plain: Option<Plain>,
}

/// A pattern that is asked of one name now and then whether it is found there: nothing is made ready for
/// the question, as it is where many names are searched. Contracts see the pattern's text.
pub struct NameTest {
    pattern: Pattern,
    steps: Steps,
}

// Written out, so that a caller's proof sees one call and not the drop of each field.
impl Drop for NameTest {
    fn drop(self) {
        let NameTest {
            pattern: _pattern,
            steps: _steps,
        } = self;
    }
}

impl Model for NameTest {
    ghost use Rattle.std.specs.Prelude.{List, ℕ, IfSome};
    ghost use Rattle.regex_compile.specs.Implements.{Implements};
    ghost use Rattle.regex_hir.specs.Meaning.{meaning};
    ghost use Rattle.name_pattern.specs.Patterns.{SearchesFor};
    ghost use Rattle.name_pattern.specs.PlainTexts.{Asks};

    ghost Value = { List ℕ };

    ghost view = { λ t. t.pattern };

    ghost invariant = { λ t. Implements t.steps.nfa (meaning t.steps.hir)
        × SearchesFor t.pattern (meaning t.steps.hir)
        × IfSome t.steps.plain (Asks (meaning t.steps.hir)) };
}

impl NameTest {
    /// The pattern with this text: `None` exactly where the text is no regular expression, or nests too
    /// deeply.
    pub fn new(alloc: Global, text: &str) -> Result<Option<NameTest>, AllocError>
        ensures { IfOk result
            (λ test. test ≡ (if is_readable text.now then Some text.now else None)) }
    {
        let Some(pattern) = Pattern::new(alloc, text)? else {
            return Ok(None);
        };
        let steps = steps_of(alloc, text)?;
        Ok(Some(NameTest { pattern, steps }))
    }

    /// The same pattern, to be searched in many names.
    pub fn pattern(&self) -> &Pattern
        ensures { result.now ≡ self.now }
    {
        &self.pattern
    }

    /// Whether the pattern is found in a name.
    pub fn is_found(&self, alloc: Global, name: &str) -> Result<bool, AllocError>
        ensures { IfOk result (λ found. found ≡ is_found self.now name.now) }
    {
        if let Some(found) = tell(alloc, &self.steps, name.as_bytes()) {
            return Ok(found);
        }
        let mut search = self.pattern.search(alloc)?;
        Ok(search.is_found(name))
    }
}

// What a text is read as, with its states.
fn steps_of(alloc: Global, text: &str) -> Result<Steps, AllocError>
    ensures implements { IfOk result (λ steps. Implements steps.nfa (meaning steps.hir)) }
    ensures searches { IfOk result (λ steps. SearchesFor text.now (meaning steps.hir)) }
    ensures plain { IfOk result (λ steps. IfSome steps.plain (Asks (meaning steps.hir))) }
{
    let Ok(Parsed { hir, names }) = parse(alloc, text, &Config::default()) else {
        return Err(AllocError);
    };
    let Ok(groups) = u32::try_from(names.len()) else {
        return Err(AllocError);
    };
    let Ok(nfa) = compile(alloc, &hir, groups, MOST_STATE_BYTES) else {
        return Err(AllocError);
    };
    let plain = Plain::of(alloc, &hir)?;
    Ok(Steps { hir, nfa, plain })
}

// Whether what a text is read as is found in a name: `None` where that was not told.
fn tell(alloc: Global, steps: &Steps, name: &[u8]) -> Option<bool>
    ensures { IfSome result (λ found. Implements steps.now.nfa (meaning steps.now.hir)
        → IfSome steps.now.plain (Asks (meaning steps.now.hir))
        → found ≡ is_some (find_str (meaning steps.now.hir) name.now 0)) }
{
    match &steps.plain {
        Some(plain) => return ask(plain, name),
        None => return walk(alloc, &steps.nfa, name),
    }
}

// Whether a pattern that asks for a text is found in a name: `None` where the text stands inside a character.
fn ask(plain: &Plain, name: &[u8]) -> Option<bool>
    ensures { IfSome result (λ found. (re : Re) → Asks re plain.now
        → found ≡ is_some (find_str re name.now 0)) }
{
    let Some(at) = plain.place_in(name) else {
        return Some(false);
    };
    if is_cut(name, at) {
        return Some(true);
    }
    None
}

// Whether states find a match in a name: `None` where the name is too long to tell, where memory ran out,
// and where the match starts inside a character.
fn walk(alloc: Global, nfa: &Nfa, name: &[u8]) -> Option<bool>
    ensures { IfSome result (λ found. (re : Re) → Implements nfa.now re
        → found ≡ is_some (find_str re name.now 0)) }
{
    let mut walk = Backtracker::new(alloc);
    let Ok(found) = walk.find(nfa, name, 0, name.len(), name.len(), &mut []) else {
        return None;
    };
    let Some((start, _)) = found else {
        return Some(false);
    };
    if is_cut(name, start) {
        return Some(true);
    }
    None
}

// Whether a character starts at a place of a text, or the text ends there.
fn is_cut(text: &[u8], at: usize) -> bool
    ensures { result ≡ is_boundary text.now at }
{
    if at >= text.len() {
        return true;
    }
    (text[at] < 0x80) | (text[at] > 0xbf)
}
