//! The parameters of a query.
ghost use Rattle.std.specs.Prelude.{◌≡◌, ◌++◌, ◌∷◌, [], None, Some, IfOk, OnOk, length};
ghost use Rattle.std.specs.Str.{bytes_eq};
ghost use Rattle.form_urlencoded.specs.Form.{raw_pairs};
ghost use Rattle.render_plan.specs.Given.{key_of, no_parameters, parameters_in, with_key, with_pair, with_pairs};

use std::alloc::{AllocError, Global};
use std::marker::Model;
use target_parse::Word;

/// The parameters of a query that mean something.
#[derive(Clone, Copy, Debug, PartialEq, Eq)]
pub(crate) enum Key {
    Target,
    From,
    Until,
    Format,
    Points,
}

/// Texts in order.
#[derive(Drop)]
pub(crate) struct Texts {
    items: Vec<Word>,
}

impl Model for Texts {
    ghost use Rattle.std.specs.Prelude.{List, ℕ};

    ghost Value = { List (List ℕ) };

    ghost view = { λ t. t.items.items };
}

impl Texts {
    ghost use Rattle.std.specs.Prelude.{◌≡◌, ◌++◌, ◌∷◌, [], OnOk};

    /// No texts.
    pub(crate) fn new(alloc: Global) -> Texts
        ensures { result ≡ [] }
    {
        Texts {
            items: Vec::new(alloc),
        }
    }

    /// Adds a text at the end.
    pub(crate) fn push(&mut self, text: Word) -> Result<(), AllocError>
        ensures { OnOk result (self.new ≡ self.old ++ text ∷ []) }
    {
        self.items.push(text)?;
        Ok(())
    }

    /// The texts in order.
    pub(crate) fn as_slice(&self) -> &[Word]
        ensures { result.now ≡ self.now }
    {
        self.items.as_slice()
    }
}

/// What the parameters of a query say: each target that is not empty, and the last of each other parameter that is not.
#[derive(Drop)]
pub(crate) struct Parameters {
    pub(crate) targets: Texts,
    pub(crate) from: Option<Word>,
    pub(crate) until: Option<Word>,
    pub(crate) format: Option<Word>,
    pub(crate) points: Option<Word>,
}

/// What the parameters of a query say, and then those of a body, read as HTML forms are.
#[tactic(auto, unfolding(crate::specs::Given::parameters_in))]
pub(crate) fn parameters_in(
    alloc: Global,
    query: &[u8],
    body: &[u8],
) -> Result<Parameters, AllocError>
    ensures { IfOk result (λ given. given ≡ parameters_in query.now body.now) }
{
    let mut given = no_parameters(alloc);
    take_form(alloc, query, &mut given)?;
    take_form(alloc, body, &mut given)?;
    Ok(given)
}

fn no_parameters(alloc: Global) -> Parameters
    ensures { result ≡ no_parameters }
{
    Parameters {
        targets: Texts::new(alloc),
        from: None,
        until: None,
        format: None,
        points: None,
    }
}

// Takes the parameters of a form.
fn take_form(alloc: Global, form: &[u8], given: &mut Parameters) -> Result<(), AllocError>
    ensures { OnOk result (given.new ≡ with_pairs given.old (raw_pairs form.now)) }
{
    for pair in form_urlencoded::parse(alloc, form) {
        let (name, value) = pair?;
        take_pair(alloc, name.as_str(), value.as_str(), given)?;
    }
    Ok(())
}

// Takes a parameter. One that is empty, or has another name, says nothing.
#[tactic(auto, unfolding(crate::specs::Given::with_pair))]
fn take_pair(
    alloc: Global,
    name: &str,
    value: &str,
    given: &mut Parameters,
) -> Result<(), AllocError>
    ensures { OnOk result (given.new ≡ with_pair given.old name.now value.now) }
{
    if value.is_empty() {
        return Ok(());
    }
    let Some(key) = key_of(name.as_bytes()) else {
        return Ok(());
    };
    let text = Word::new(alloc, value)?;
    take_text(key, text, given)
}

fn take_text(key: Key, text: Word, given: &mut Parameters) -> Result<(), AllocError>
    ensures { OnOk result (given.new ≡ with_key given.old key text) }
{
    match key {
        Key::Target => return given.targets.push(text),
        Key::From => given.from = Some(text),
        Key::Until => given.until = Some(text),
        Key::Format => given.format = Some(text),
        Key::Points => given.points = Some(text),
    }
    Ok(())
}

#[tactic(auto, unfolding(crate::specs::Given::key_of))]
fn key_of(name: &[u8]) -> Option<Key>
    ensures { result ≡ key_of name.now }
{
    if is_word(name, b"target") {
        return Some(Key::Target);
    }
    if is_word(name, b"from") {
        return Some(Key::From);
    }
    if is_word(name, b"until") {
        return Some(Key::Until);
    }
    if is_word(name, b"format") {
        return Some(Key::Format);
    }
    if is_word(name, b"maxDataPoints") {
        return Some(Key::Points);
    }
    None
}

/// Whether a text is this word.
pub(crate) fn is_word(text: &[u8], word: &[u8]) -> bool
    ensures { result ≡ bytes_eq text.now word.now }
{
    text == word
}
