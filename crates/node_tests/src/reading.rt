//! Nodes and forms by their texts, such as `sum 5 1*0 ff*2 | 5 2003`: the kind's name and arguments, and the interval.
//! Words are in hexadecimal; the numbers of nodes, registers, parameters and bits are in decimal.

use std::alloc::Global;
use terms::{Form, Node, NodeKind, Numbers, Term, Terms};

fn word_in(text: &str) -> Option<u64> {
    u64::from_str_radix(text, 16).ok()
}

pub fn number_in(text: &str) -> Option<u32> {
    u32::from_str_radix(text, 10).ok()
}

fn byte_in(text: &str) -> Option<u8> {
    u8::from_str_radix(text, 10).ok()
}

// The text of a term is its multiplier, a star and its node.
fn terms_in(alloc: Global, texts: &[&str]) -> Option<Terms> {
    let mut terms = Terms::new(alloc);
    for text in texts {
        let Some((times, node)) = text.split_once('*') else {
            return None;
        };
        let term = Term {
            times: word_in(times)?,
            node: number_in(node)?,
        };
        terms.push(term).ok()?;
    }
    Some(terms)
}

fn numbers_in(alloc: Global, texts: &[&str]) -> Option<Numbers> {
    let mut numbers = Numbers::new(alloc);
    for text in texts {
        numbers.push(number_in(text)?).ok()?;
    }
    Some(numbers)
}

// A kind that has a list.
fn listed(alloc: Global, name: &str, arguments: &[&str]) -> Option<NodeKind> {
    let [first, rest @ ..] = arguments else {
        return None;
    };
    match name {
        "lin" | "sum" => Some(NodeKind::Sum {
            k: word_in(first)?,
            terms: terms_in(alloc, rest)?,
        }),
        "wide" => Some(NodeKind::Wide {
            k: word_in(first)?,
            terms: terms_in(alloc, rest)?,
        }),
        "carry" => Some(NodeKind::Carry(numbers_in(alloc, arguments)?)),
        "borrow" => Some(NodeKind::Borrow {
            a: number_in(first)?,
            list: numbers_in(alloc, rest)?,
        }),
        _ => None,
    }
}

// A kind with one argument.
fn single(name: &str, first: &str) -> Option<NodeKind> {
    match name {
        "const" => Some(NodeKind::Const(word_in(first)?)),
        "start" => Some(NodeKind::Start(byte_in(first)?)),
        "zero" => Some(NodeKind::Zero(number_in(first)?)),
        _ => None,
    }
}

// A kind with two nodes.
fn paired(name: &str, a: u32, b: u32) -> Option<NodeKind> {
    match name {
        "mullo" => Some(NodeKind::MulLo(a, b)),
        "mulhi" => Some(NodeKind::MulHi(a, b)),
        "and" => Some(NodeKind::And(a, b)),
        "or" => Some(NodeKind::Or(a, b)),
        "xor" => Some(NodeKind::Xor(a, b)),
        "setb" => Some(NodeKind::SetB { v: a, b }),
        _ => None,
    }
}

// A kind with two arguments.
fn double(name: &str, first: &str, second: &str) -> Option<NodeKind> {
    match name {
        "in" => Some(NodeKind::In {
            param: byte_in(first)?,
            word: byte_in(second)?,
        }),
        "shr" => Some(NodeKind::Shr {
            x: number_in(first)?,
            k: byte_in(second)?,
        }),
        _ => paired(name, number_in(first)?, number_in(second)?),
    }
}

fn select_in(name: &str, c: &str, x: &str, y: &str) -> Option<NodeKind> {
    match name {
        "select" => Some(NodeKind::Select {
            c: number_in(c)?,
            x: number_in(x)?,
            y: number_in(y)?,
        }),
        _ => None,
    }
}

fn is_listed(name: &str) -> bool {
    matches!(name, "lin" | "sum" | "wide" | "carry" | "borrow")
}

fn kind_in(alloc: Global, text: &str) -> Option<NodeKind> {
    let words: Vec<&str> = text.split_whitespace().collect(alloc).ok()?;
    match words.as_slice() {
        [name, arguments @ ..] if is_listed(name) => listed(alloc, name, arguments),
        [name, first] => single(name, first),
        [name, first, second] => double(name, first, second),
        [name, c, x, y] => select_in(name, c, x, y),
        _ => None,
    }
}

pub fn node_in(alloc: Global, text: &str) -> Option<Node> {
    let (kind, bounds) = text.split_once(" | ")?;
    let (low, high) = bounds.split_once(' ')?;
    Some(Node {
        kind: kind_in(alloc, kind)?,
        low: word_in(low)?,
        high: word_in(high)?,
    })
}

// The form of which a node of this kind is made, where no rule makes another one.
fn form_of(node: Node) -> Form {
    match node.kind {
        NodeKind::Const(v) => Form::Const(v),
        NodeKind::Start(reg) => Form::Start(reg),
        NodeKind::In { param, word } => Form::In {
            param,
            word,
            low: node.low,
            high: node.high,
        },
        NodeKind::Sum { k, terms } => Form::Lin { k, terms },
        NodeKind::Wide { k, terms } => Form::Lin { k, terms },
        NodeKind::Carry(list) => Form::Carry(list),
        NodeKind::Borrow { a, list } => Form::Borrow { a, list },
        NodeKind::Zero(x) => Form::Zero(x),
        NodeKind::MulLo(a, b) => Form::MulLo(a, b),
        NodeKind::MulHi(a, b) => Form::MulHi(a, b),
        NodeKind::And(a, b) => Form::And(a, b),
        NodeKind::Or(a, b) => Form::Or(a, b),
        NodeKind::Xor(a, b) => Form::Xor(a, b),
        NodeKind::Shr { x, k } => Form::Shr { x, k },
        NodeKind::Select { c, x, y } => Form::Select { c, x, y },
        NodeKind::SetB { v, b } => Form::SetB { v, b },
    }
}

// A form has its kind's text; that of an input word has bounds too.
pub fn form_in(alloc: Global, text: &str) -> Option<Form> {
    if text.contains('|') {
        return Some(form_of(node_in(alloc, text)?));
    }
    Some(form_of(Node {
        kind: kind_in(alloc, text)?,
        low: 0,
        high: 0,
    }))
}
