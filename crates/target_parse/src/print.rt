//! The text of what a target says.
ghost use Rattle.std.specs.Prelude.{◌≡◌, ◌++◌, ◌∷◌, [], IfOk, OnOk, string_bytes};
ghost use Rattle.target_parse.specs.Tree.{further_texts, shown_quote, text_of, texts_of, tree_of, trees_of};

use crate::bytes::flag_text;
use crate::expr::Expr;
use path_glob::Glob;
use std::alloc::{AllocError, Global};

/// The text of what a target says, without blanks outside quoted texts.
pub fn text_of(alloc: Global, expr: &Expr) -> Result<String, AllocError>
    ensures { IfOk result (λ text. string_bytes text ≡ text_of (tree_of expr.now)) }
{
    let mut out = String::new(alloc);
    push_text(&mut out, expr)?;
    Ok(out)
}

#[cycle(print)]
fn push_text(out: &mut String, expr: &Expr) -> Result<(), AllocError>
    ensures { OnOk result
        (string_bytes out.new ≡ string_bytes out.old ++ text_of (tree_of expr.now)) }
{
    match expr {
        Expr::Call(name, arguments) => {
            out.push_str(name.as_str())?;
            out.push_str("(")?;
            push_texts(out, arguments)?;
            out.push_str(")")?;
            return Ok(());
        }
        Expr::Path(glob) => return push_glob(out, glob),
        Expr::Number(number) => return out.push_str(number.as_str()),
        Expr::Flag(flag) => return out.push_str(flag_text(*flag)),
        Expr::Text(quote, text) => return push_quoted(out, *quote, text.as_str()),
    }
}

// The arguments of a call, with commas between them.
#[cycle(print)]
fn push_texts(out: &mut String, arguments: &Vec<Expr>) -> Result<(), AllocError>
    ensures { OnOk result (string_bytes out.new
        ≡ string_bytes out.old ++ texts_of (trees_of arguments.now.items)) }
{
    let mut is_first = true;
    for argument in arguments {
        if !is_first {
            out.push_str(",")?;
        }
        is_first = false;
        push_text(out, argument)?;
    }
    Ok(())
}

fn push_glob(out: &mut String, glob: &Glob) -> Result<(), AllocError>
    ensures { OnOk result (string_bytes out.new ≡ string_bytes out.old ++ glob.now.text) }
{
    let Ok(text) = str::from_utf8(glob.text()) else {
        unreachable!()
    };
    out.push_str(text)
}

fn push_quoted(out: &mut String, quote: u8, text: &str) -> Result<(), AllocError>
    ensures { OnOk result (string_bytes out.new ≡ string_bytes out.old
        ++ shown_quote quote ∷ (text.now ++ shown_quote quote ∷ [])) }
{
    let mark = quote_text(quote);
    out.push_str(mark)?;
    out.push_str(text)?;
    out.push_str(mark)
}

fn quote_text(quote: u8) -> &'static str
    ensures { result.now ≡ shown_quote quote ∷ [] }
{
    if quote == b'"' { "\"" } else { "'" }
}
