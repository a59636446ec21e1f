//! Types, effects, sorts, and the numbers that stand for names, locations and types.

/// The code to which a reference belongs: protected or unprotected.
#[derive(Clone, Copy, PartialEq, Eq, Debug)]
pub enum Sort {
    Protected,
    Unprotected,
}

/// Under which code a term may run; `Either` fits both.
#[derive(Clone, Copy, PartialEq, Eq, Debug)]
pub enum Effect {
    Protected,
    Unprotected,
    Either,
}

/// A type of the language.
#[derive(Drop)]
pub enum Ty {
    Unit,
    Bool,
    Int,
    Ref(Sort, Box<Ty>),
    Fun(Effect, Box<Ty>, Box<Ty>),
    Pair(Box<Ty>, Box<Ty>),
}

/// A name, by the order of its first appearance in the text.
#[derive(Clone, Copy, PartialEq, Eq, Debug)]
pub struct Name(pub u32);

/// A location of the store.
#[derive(Clone, Copy, PartialEq, Eq, Debug)]
pub struct Loc(pub u32);

/// A `ref` form, by its order in the text.
#[derive(Clone, Copy, PartialEq, Eq, Debug)]
pub struct TyNo(pub u32);

/// An operator on two integers. Sums, differences and products wrap.
#[derive(Clone, Copy, PartialEq, Eq, Debug)]
pub enum Op {
    Add,
    Sub,
    Mul,
    Less,
    Same,
}

/// A form with one part, which is evaluated in its place.
#[derive(Clone, Copy, PartialEq, Eq, Debug)]
pub enum Unary {
    Not,
    /// A `ref` form, with its number among those of the text.
    Ref(Sort, TyNo),
    Get,
    Peek,
    Block,
    Print,
    /// A call of the device with this number.
    Call(u8),
    First,
    Second,
}

/// A form with two parts, which are evaluated from left to right.
#[derive(Clone, Copy, PartialEq, Eq, Debug)]
pub enum Binary {
    App,
    Bin(Op),
    Set,
    Pair,
}
