// The trees of the first language that runs: integer variables, sums, `echo`, and text outside the tags.
#![tactic(auto)]

use sqlite_items::{Boxed, Items};

/// What a product is made of.
#[derive(Drop)]
pub enum Atom {
    /// An integer as written, so at least 0.
    Int(i64),
    /// A variable, by its number: the place of its name in the names of the script.
    Variable(usize),
    /// A sum in parentheses.
    Group(Boxed<Sum<Atom>>),
}

/// Atoms that are multiplied, from the left.
#[derive(Drop)]
pub struct Product<A> {
    pub first: A,
    pub rest: Items<A>,
}

/// Products that are added and subtracted, from the left.
#[derive(Drop)]
pub struct Sum<A> {
    pub first: Product<A>,
    pub rest: Items<Term<A>>,
}

/// A further product of a sum, with the sign before it.
#[derive(Drop)]
pub struct Term<A> {
    pub sign: Sign,
    pub product: Product<A>,
}

/// How a product joins the sum before it.
#[derive(Clone, Copy, Debug, PartialEq, Eq)]
pub enum Sign {
    Plus,
    Minus,
}

/// A statement, and the line of its first token.
#[derive(Drop)]
pub struct Statement {
    pub line: u32,
    pub action: Action,
}

/// What a statement does.
#[derive(Drop)]
pub enum Action {
    /// The variable of this number takes the value of the sum.
    Assign(usize, Sum<Atom>),
    /// The parts are written, each before the next is evaluated. There is at least one.
    Echo(Items<Part>),
    /// The text of the token at this place is written: it stands outside the tags.
    Inline(usize),
    /// A semicolon alone. It does nothing and takes no tick.
    Empty,
}

/// A part of an `echo`.
#[derive(Drop)]
pub enum Part {
    /// The value of the sum is written.
    Value(Sum<Atom>),
    /// The text of the token at this place is written: a text literal.
    Text(usize),
}

/// A script. The variables are numbered in the order in which they first occur.
#[derive(Drop)]
pub struct Script {
    pub variables: usize,
    pub statements: Items<Statement>,
}
