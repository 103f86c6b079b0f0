use crate::expressions::put_expr;
use crate::page::Page;
use dtml_parse::{Arg, Arms, Bindings, Node, Tree, VarTag};
use zbase::Text;

// Adds an argument: a name as it is, an expression in braces.
fn put_arg(page: &mut Page, arg: &Arg) {
    match arg {
        Arg::Name(name) => page.put_text(name.as_str()),
        Arg::Expression(expr) => {
            page.put("{");
            put_expr(page, expr);
            page.put("}");
        }
    }
}

// Begins the line of a tag with its name and its place.
fn put_tag(page: &mut Page, steps: u64, name: &str, at: u32) {
    page.begin(steps, name);
    page.put(" ");
    page.put_place(at as usize);
}

// Begins the line of a tag that has an argument.
fn put_head(page: &mut Page, steps: u64, name: &str, at: u32, arg: &Arg) {
    put_tag(page, steps, name, at);
    page.put(" ");
    put_arg(page, arg);
}

// Adds a word where it is given.
fn put_flag(page: &mut Page, flag: bool, word: &str) {
    if flag {
        page.put(" ");
        page.put(word);
    }
}

// Adds a word with its text in brackets where it is given.
fn put_value(page: &mut Page, word: &str, value: &Option<Text>) {
    if let Some(text) = value {
        page.put(" ");
        page.put(word);
        page.put("(");
        page.put_text(text.as_str());
        page.put(")");
    }
}

// Adds the line of a text.
fn put_plain(page: &mut Page, steps: u64, text: &str) {
    page.begin(steps, "plain '");
    page.put_text(text);
    page.put("'");
    page.end();
}

// Adds the line of a `var`.
fn put_var(page: &mut Page, steps: u64, at: u32, tag: &VarTag) {
    put_head(page, steps, "var", at, &tag.arg);
    put_flag(page, tag.html_quote, "html_quote");
    put_flag(page, tag.url_quote, "url_quote");
    put_flag(page, tag.newline_to_br, "newline_to_br");
    put_flag(page, tag.lower, "lower");
    put_flag(page, tag.upper, "upper");
    put_flag(page, tag.capitalize, "capitalize");
    put_value(page, "missing", &tag.missing);
    if let Some(size) = tag.size {
        page.put(" size(");
        page.put_place(size as usize);
        page.put(")");
    }
    put_value(page, "etc", &tag.etc);
    page.end();
}

// Adds the line of a `call`.
fn put_call(page: &mut Page, steps: u64, at: u32, arg: &Arg) {
    put_head(page, steps, "call", at, arg);
    page.end();
}

// Begins the line of a `let` with its bindings.
fn put_bindings(page: &mut Page, steps: u64, at: u32, bindings: &Bindings) {
    put_tag(page, steps, "let", at);
    for binding in bindings.as_slice() {
        page.put(" ");
        page.put_text(binding.name.as_str());
        page.put("=");
        put_arg(page, &binding.arg);
    }
}

// Adds the block of an `else`, where there is one.
#[cycle(shown)]
fn put_else(page: &mut Page, steps: u64, block: &Option<Tree>) {
    if let Some(block) = block {
        page.begin(steps, "else");
        put_block(page, steps, block);
    }
}

// The word with which an arm of an `if` begins.
fn arm_word(is_first: bool) -> &'static str {
    if is_first { "if" } else { "elif" }
}

// Adds the arms of an `if`, the first by that word and the others as `elif`.
#[cycle(shown)]
fn put_arms(page: &mut Page, steps: u64, arms: &Arms) {
    let mut is_first = true;
    for arm in arms.items.as_slice() {
        put_head(page, steps, arm_word(is_first), arm.at, &arm.arg);
        put_block(page, steps, &arm.block);
        is_first = false;
    }
}

// Ends the line of a tag, and adds its block a step to the right.
#[cycle(shown)]
fn put_block(page: &mut Page, steps: u64, block: &Tree) {
    page.end();
    put_tree(page, steps.saturating_add(1), block);
}

// Adds a node.
#[cycle(shown)]
fn put_node(page: &mut Page, steps: u64, node: &Node) {
    match node {
        Node::Plain(text) => put_plain(page, steps, text.as_str()),
        Node::Var(at, tag) => put_var(page, steps, *at, tag),
        Node::Call(at, arg) => put_call(page, steps, *at, arg),
        Node::If(arms, otherwise) => {
            put_arms(page, steps, arms);
            put_else(page, steps, otherwise);
        }
        Node::Unless(at, arg, block) => {
            put_head(page, steps, "unless", *at, arg);
            put_block(page, steps, block);
        }
        Node::Loop {
            at,
            arg,
            reverse,
            skip_unauthorized,
            block,
            otherwise,
        } => {
            put_head(page, steps, "in", *at, arg);
            put_flag(page, *reverse, "reverse");
            put_flag(page, *skip_unauthorized, "skip_unauthorized");
            put_block(page, steps, block);
            put_else(page, steps, otherwise);
        }
        Node::With(at, arg, block) => {
            put_head(page, steps, "with", *at, arg);
            put_block(page, steps, block);
        }
        Node::Let(at, bindings, block) => {
            put_bindings(page, steps, *at, bindings);
            put_block(page, steps, block);
        }
        Node::Comment(at, block) => {
            put_tag(page, steps, "comment", *at);
            put_block(page, steps, block);
        }
    }
}

/// Adds the nodes of a tree, so many steps to the right.
#[cycle(shown)]
pub fn put_tree(page: &mut Page, steps: u64, tree: &Tree) {
    for node in tree.nodes.items.as_slice() {
        put_node(page, steps, node);
    }
}
