//! The tokens that are left, and what was found so far.

ghost use Rattle.std.specs.Prelude.{◌≡◌, ◌≤◌, ◌<◌, ◌^◌, All, IfOk, map, length};
ghost use Rattle.ame_lex.specs.Tokens.{IsWithin};
ghost use Rattle.ame_parse.specs.declared.fault.ParseFault.TheVariants.{Expected, Trailing};
ghost use Rattle.ame_parse.specs.Input as spec;
ghost use Rattle.ame_parse.specs.Input.{Reads};
ghost use Rattle.ame_parse.specs.Seen.{start_of};

use crate::ahead::{Ahead, ahead_of};
use crate::fault::{ParseFault, Want};
use crate::names::Names;
use ame_lex::{Kind, Token};
use ame_term::{Name, TyNo};
use std::alloc::{AllocError, Global};
use std::marker::Model;

#[derive(Drop)]
pub struct Reader<'a> {
    text: &'a [u8],
    rest: &'a [Token],
    names: Names,
    /// The numbers of the names that are bound, the innermost last.
    scope: Vec<u32>,
    places: Vec<u32>,
    /// The number of `ref` forms that began.
    refs: u32,
}

impl<'a> Model for Reader<'a> {
    ghost use Rattle.ame_parse.specs.Input.{Input};

    ghost Value = { Input };

    ghost use Rattle.ame_parse.specs.Cursor.{input_of, IsReadyCursor};

    ghost view = { input_of };

    ghost invariant = { IsReadyCursor };
}

impl<'a> Reader<'a> {
    pub fn new(alloc: Global, text: &'a [u8], tokens: &'a [Token]) -> Reader<'a>
        requires within { All (IsWithin text.now) tokens.now }
        requires small { length text.now < 2 ^ 32 }
        requires few { length tokens.now < 2 ^ 32 }
        ensures { result ≡ start_of text.now tokens.now }
    {
        Reader {
            text,
            rest: tokens,
            names: Names::new(alloc),
            scope: Vec::new(alloc),
            places: Vec::new(alloc),
            refs: 0,
        }
    }

    #[tactic(auto, unfolding(crate::specs::Input::ahead))]
    pub fn ahead(&self) -> Ahead
        ensures { result ≡ spec.ahead self.now }
    {
        match self.rest.first() {
            None => Ahead::End,
            Some(token) => {
                let spelling = &self.text[token.start as usize..token.end as usize];
                ahead_of(token.kind, spelling)
            }
        }
    }

    /// Returns the bytes of the next token; none at the end.
    #[tactic(auto, unfolding(crate::specs::Input::spelling))]
    pub fn spelling(&self) -> &'a [u8]
        ensures { result.now ≡ spec.spelling self.now }
    {
        match self.rest.first() {
            None => &[],
            Some(token) => &self.text[token.start as usize..token.end as usize],
        }
    }

    /// Returns the place of the next token, or of the end.
    #[tactic(auto, unfolding(crate::specs::Input::place))]
    pub fn place(&self) -> u32
        ensures { result ≡ spec.place self.now }
    {
        match self.rest.first() {
            None => self.text.len() as u32,
            Some(token) => token.start,
        }
    }

    /// Counts the tokens that are left.
    #[tactic(auto, unfolding(crate::specs::Input::tokens_left))]
    pub fn left(&self) -> usize
        ensures { result ≡ spec.tokens_left self.now }
    {
        self.rest.len()
    }

    pub fn expected(&self, want: Want) -> ParseFault
        ensures { result ≡ Expected (spec.place self.now) want }
    {
        ParseFault::Expected(self.place(), want)
    }

    #[tactic(auto, unfolding(crate::specs::Input::advanced))]
    pub fn advance(&mut self)
        ensures { self.new ≡ spec.advanced self.old }
    {
        if let [_, rest @ ..] = self.rest {
            self.rest = rest;
        }
    }

    /// Begins a node at the next token.
    #[tactic(auto, unfolding(crate::specs::Input::marked))]
    pub fn mark(&mut self) -> Result<(), ParseFault>
        ensures { Reads (λ x. x) (spec.mark self.old) result self.new }
    {
        let place = self.place();
        self.places.push(place)?;
        Ok(())
    }

    #[tactic(auto, using(crate::proofs::ReaderLemmas::closes), unfolding(crate::specs::Input::sees_closing, crate::specs::Input::ahead))]
    pub fn sees_closing(&self) -> bool
        ensures { spec.sees_closing self.now ≡ Ok (result, self.now) }
    {
        match self.rest.first() {
            Some(token) => matches!(token.kind, Kind::Close),
            None => false,
        }
    }

    #[tactic(auto, unfolding(crate::specs::Input::closing))]
    pub fn closing(&mut self) -> Result<(), ParseFault>
        ensures { Reads (λ x. x) (spec.closing self.old) result self.new }
    {
        match self.ahead() {
            Ahead::Closing => {
                self.advance();
                Ok(())
            }
            _ => Err(self.expected(Want::Closing)),
        }
    }

    #[tactic(auto, unfolding(crate::specs::Input::finish))]
    pub fn finish(&self) -> Result<(), ParseFault>
        ensures { Reads (λ x. x) (spec.finish self.now) result self.now }
    {
        match self.ahead() {
            Ahead::End => Ok(()),
            _ => Err(ParseFault::Trailing(self.place())),
        }
    }

    /// Reads the opening parenthesis of a parameter, if at most `depth` parentheses may be open in it.
    #[tactic(auto, unfolding(crate::specs::Input::opening))]
    pub fn opening(&mut self, depth: usize) -> Result<(), ParseFault>
        ensures { Reads (λ x. x) (spec.opening depth self.old) result self.new }
    {
        match self.ahead() {
            Ahead::Opening if depth == 0 => Err(ParseFault::TooNested(self.place())),
            Ahead::Opening => {
                self.advance();
                Ok(())
            }
            _ => Err(self.expected(Want::Opening)),
        }
    }

    #[tactic(auto, unfolding(crate::specs::Input::tokens_left, crate::specs::Input::name_number, crate::specs::Input::named, crate::specs::Input::spelling))]
    fn take_name(&mut self, alloc: Global) -> Result<Name, AllocError>
        requires { 0 < spec.tokens_left self.old }
        ensures number { IfOk result (λ name. name.0 ≡ spec.name_number self.old) }
        ensures next { IfOk result (λ name. self.new ≡ spec.named self.old) }
    {
        let spelling = self.spelling();
        let number = self.names.number(alloc, spelling)?;
        self.rest = self.rest.split_at(1).1;
        Ok(Name(number as u32))
    }

    /// Reads a name, and returns its number.
    #[tactic(auto, using(crate::proofs::ReaderLemmas::name_is_left), unfolding(crate::specs::Input::name))]
    pub fn name(&mut self, alloc: Global) -> Result<Name, ParseFault>
        ensures { Reads (λ x. x.0) (spec.name self.old) result self.new }
    {
        match self.ahead() {
            Ahead::Name => Ok(self.take_name(alloc)?),
            _ => Err(self.expected(Want::Name)),
        }
    }

    #[tactic(auto, unfolding(crate::specs::Input::binds_name))]
    pub fn binds(&self, name: Name) -> bool
        ensures { result ≡ spec.binds_name name.0 self.now }
    {
        self.scope.contains(&name.0)
    }

    #[tactic(auto, unfolding(crate::specs::Input::bound))]
    pub fn bind(&mut self, name: Name) -> Result<(), ParseFault>
        ensures { Reads (λ x. x) (spec.bind_name name.0 self.old) result self.new }
    {
        self.scope.push(name.0)?;
        Ok(())
    }

    /// Unbinds the innermost name.
    #[tactic(auto, unfolding(crate::specs::Input::unbound))]
    pub fn unbind(&mut self)
        ensures { self.new ≡ spec.unbound self.old }
    {
        let _name = self.scope.pop();
    }

    /// Takes the next token, with which a `ref` form begins, and gives the form its number.
    #[tactic(auto, unfolding(crate::specs::Input::tokens_left, crate::specs::Input::advanced, crate::specs::Input::ref_counted))]
    pub fn take_ref(&mut self) -> TyNo
        requires { 0 < spec.tokens_left self.old }
        ensures number { result ≡ spec.ref_number (spec.advanced self.old) }
        ensures next { self.new ≡ spec.ref_counted (spec.advanced self.old) }
    {
        let number = TyNo(self.refs);
        self.rest = self.rest.split_at(1).1;
        self.refs += 1;
        number
    }

    /// Returns the names by their numbers, and the places.
    pub fn into_lists(self, alloc: Global) -> Result<(Vec<Vec<u8>>, Vec<u32>), AllocError>
        ensures { IfOk result (λ lists. (map (λ name. name.items) lists.0.items ≡ self.entry.names) × (lists.1.items ≡ self.entry.places)) }
    {
        let Reader { names, places, .. } = self;
        Ok((names.into_list(alloc)?, places))
    }
}
