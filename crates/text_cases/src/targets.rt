//! Targets of a query.

use crate::given::joined;
use crate::telling::{push_bytes, push_string};
use case_lines::{Case, Told};
use std::alloc::Global;
use target_parse::{Expr, TargetFault, parse, text_of};

/// `target TEXT`: what the target says, or why it is none. A call is `<NAME|ARGUMENT..>`, and each other argument has its kind before it.
pub fn tell_target(alloc: Global, told: &mut Told, case: &Case) {
    match parse(alloc, &joined(alloc, case, 0, told)) {
        Ok(expr) => push_expr(told, &expr),
        Err(fault) => push_fault(told, fault),
    }
}

/// `target-text TEXT`: the text of what the target says, or why it is none.
pub fn tell_text(alloc: Global, told: &mut Told, case: &Case) {
    match parse(alloc, &joined(alloc, case, 0, told)) {
        Ok(expr) => push_string(told, text_of(alloc, &expr)),
        Err(fault) => push_fault(told, fault),
    }
}

// Each kind with marks of its own.
fn push_expr(told: &mut Told, expr: &Expr) {
    match expr {
        Expr::Call(name, arguments) => {
            told.push('<');
            told.push_str(name.as_str());
            for argument in arguments {
                told.push('|');
                push_expr(told, argument);
            }
            told.push('>');
        }
        Expr::Path(glob) => {
            told.push_str("path ");
            push_bytes(told, glob.text());
        }
        Expr::Number(number) => push_marked(told, "number ", number.as_str()),
        Expr::Flag(flag) => told.push_str(if *flag { "yes" } else { "no" }),
        Expr::Text(b'"', text) => push_marked(told, "double ", text.as_str()),
        Expr::Text(_, text) => push_marked(told, "single ", text.as_str()),
    }
}

fn push_marked(told: &mut Told, mark: &str, text: &str) {
    told.push_str(mark);
    told.push_str(text);
}

// The words of a fault.
fn push_fault(told: &mut Told, fault: TargetFault) {
    match fault {
        TargetFault::At(place) => write!(told, "at {place}"),
        TargetFault::TooDeep => told.push_str("too deep"),
        TargetFault::TooLong => told.push_str("too long"),
        TargetFault::NoMemory => told.push_str("no memory"),
    }
}
