use crate::page::Page;
use dtml_expr::{Expr, Exprs, Order};

// How an order is spelled.
fn order_text(order: Order) -> &'static str {
    match order {
        Order::Eq => "==",
        Order::Ne => "!=",
        Order::Lt => "<",
        Order::Gt => ">",
        Order::Le => "<=",
        Order::Ge => ">=",
    }
}

/// Adds an expression: a number, a text in its quotes and a name as they are, any other in brackets with its sign or
/// word before its parts.
#[cycle(shown)]
pub fn put_expr(page: &mut Page, expr: &Expr) {
    match expr {
        Expr::Number(number) => page.put_number(*number),
        Expr::Quoted(text) => {
            page.put("'");
            page.put_text(text.as_str());
            page.put("'");
        }
        Expr::Name(name) => page.put_text(name.as_str()),
        Expr::Or(operands) => put_all(page, "or", operands),
        Expr::And(operands) => put_all(page, "and", operands),
        Expr::Not(operand) => {
            put_first(page, "not", operand);
            page.put(")");
        }
        Expr::Compare(left, order, right) => {
            put_first(page, order_text(*order), left);
            put_last(page, right);
        }
        Expr::Add(left, right) => {
            put_first(page, "+", left);
            put_last(page, right);
        }
        Expr::Sub(left, right) => {
            put_first(page, "-", left);
            put_last(page, right);
        }
        Expr::Mul(left, right) => {
            put_first(page, "*", left);
            put_last(page, right);
        }
        Expr::Dot(object, name) => {
            put_first(page, ".", object);
            page.put(" ");
            page.put_text(name.as_str());
            page.put(")");
        }
    }
}

// Adds an opening bracket, a sign or a word, and the first operand.
#[cycle(shown)]
fn put_first(page: &mut Page, sign: &str, operand: &Expr) {
    page.put("(");
    page.put(sign);
    page.put(" ");
    put_expr(page, operand);
}

// Adds the last operand and the closing bracket.
#[cycle(shown)]
fn put_last(page: &mut Page, operand: &Expr) {
    page.put(" ");
    put_expr(page, operand);
    page.put(")");
}

// Adds operands in brackets, with their word before them.
#[cycle(shown)]
fn put_all(page: &mut Page, word: &str, operands: &Exprs) {
    page.put("(");
    page.put(word);
    for operand in operands.items.as_slice() {
        page.put(" ");
        put_expr(page, operand);
    }
    page.put(")");
}

/// The word of what an expression is, and how many operands it has: all of them of an `or` and an `and`, and of a chain
/// that groups from the left one more than it has links.
pub fn outline(expr: &Expr) -> (&'static str, usize) {
    let word = match expr {
        Expr::Or(operands) => return ("or", operands.items.len()),
        Expr::And(operands) => return ("and", operands.items.len()),
        Expr::Not(_) => "not",
        Expr::Compare(_, order, _) => order_text(*order),
        Expr::Add(_, _) => "+",
        Expr::Sub(_, _) => "-",
        Expr::Mul(_, _) => "*",
        Expr::Dot(_, _) => ".",
        _ => "item",
    };
    (word, links(expr).saturating_add(1))
}

// How many sums, differences, products and names behind dots stand one to the left of another.
fn links(expr: &Expr) -> usize {
    let mut left = expr;
    for met in 0..1_000_000usize {
        left = match left {
            Expr::Add(more, _) => more,
            Expr::Sub(more, _) => more,
            Expr::Mul(more, _) => more,
            Expr::Dot(more, _) => more,
            _ => return met,
        };
    }
    1_000_000
}
