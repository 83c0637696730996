//! `Trees`: tokens whose delimiters match.

ghost use Rattle.std.specs.Prelude.{◌≡◌, ◌+◌, ◌-◌, ◌^◌, ◌<◌, ◌≤◌, length, IfOk, OnOk, slice_index, vec_len};
ghost use Rattle.rust_trees.specs.Partners.{ArePartners};

use crate::fault::{TreeError, TreeFault};
use rust_lexer::{Sources, Token, TokenKind};
use std::alloc::{AllocError, Global};

/// The tokens that trees may have fewer of.
const LIMIT: usize = 0xffff_ffff;

/// Tokens whose delimiters match.
#[derive(Drop)]
pub struct Trees {
    tokens: Vec<Token>,
    /// For a delimiter the place of its partner, for another token its own.
    partners: Vec<u32>,
    ghost matched: { ArePartners partners.items },
    ghost as_many: { vec_len partners ≡ vec_len tokens },
}

/// The delimiter that closes what a kind opens.
fn closer(kind: TokenKind) -> Option<TokenKind> {
    match kind {
        TokenKind::OpenParen => Some(TokenKind::CloseParen),
        TokenKind::OpenBracket => Some(TokenKind::CloseBracket),
        TokenKind::OpenBrace => Some(TokenKind::CloseBrace),
        _ => None,
    }
}

/// Whether a kind closes.
fn closes(kind: TokenKind) -> bool {
    matches!(
        kind,
        TokenKind::CloseParen | TokenKind::CloseBracket | TokenKind::CloseBrace
    )
}

/// Makes two places partners of each other, which have none.
#[tactic(auto, using(crate::proofs::PartnersLemmas::paired))]
fn pair(partners: &mut [u32], opener: usize, at: usize)
    requires opener { opener < length partners.old }
    requires at { at < length partners.old }
    requires open { slice_index partners.old opener ≡ opener }
    requires new { slice_index partners.old at ≡ at }
    requires matched { ArePartners partners.old }
    ensures { ArePartners partners.new }
{
    partners[opener] = at as u32;
    partners[at] = opener as u32;
}

/// Adds the next place, which is its own partner so far.
#[tactic(auto, using(crate::proofs::PartnersLemmas::one_more))]
fn add_place(partners: &mut Vec<u32>, at: usize) -> Result<(), AllocError>
    requires next { at ≡ vec_len partners.old }
    requires small { at < 0xffff_ffff }
    requires matched { ArePartners partners.old.items }
    ensures matched { OnOk result (ArePartners partners.new.items) }
    ensures len { OnOk result (vec_len partners.new ≡ at + 1) }
    ensures open { OnOk result (slice_index partners.new.items at ≡ at) }
{
    partners.push(at as u32)?;
    Ok(())
}

/// Makes two places of a list partners of each other, which have none.
fn pair_in(partners: &mut Vec<u32>, opener: usize, at: usize)
    requires opener { opener < vec_len partners.old }
    requires at { at < vec_len partners.old }
    requires open { slice_index partners.old.items opener ≡ opener }
    requires new { slice_index partners.old.items at ≡ at }
    requires matched { ArePartners partners.old.items }
    ensures matched { ArePartners partners.new.items }
    ensures len { vec_len partners.new ≡ vec_len partners.old }
{
    pair(partners.as_mut_slice(), opener, at);
}

/// The place of the delimiter that the one at a place closes: the last one that is open.
fn closed_by(
    tokens: &[Token],
    partners: &[u32],
    open: Option<u32>,
    at: usize,
) -> Result<usize, TreeFault>
    requires { at < length tokens.now }
    ensures inside { IfOk result (λ opener. opener < length partners.now) }
    ensures open { IfOk result (λ opener. slice_index partners.now opener ≡ opener) }
{
    let Some(opener) = open else {
        return Err(TreeFault::Unopened);
    };
    let opener = opener as usize;
    // What is open is its own partner so far.
    if opener >= tokens.len() || opener >= partners.len() || partners[opener] as usize != opener {
        return Err(TreeFault::Unopened);
    }
    if closer(tokens[opener].kind) == Some(tokens[at].kind) {
        Ok(opener)
    } else {
        Err(TreeFault::Mismatched)
    }
}

/// The error of the token at a place.
fn error_at(sources: &Sources, token: Token, fault: TreeFault) -> TreeError {
    TreeError {
        fault,
        place: sources.place(token),
    }
}

impl Trees {
    ghost use Rattle.rust_trees.specs.Trees.{tokens_of, partners_of};

    /// The trees of tokens, which are of these sources.
    pub fn new(
        alloc: Global,
        sources: &Sources,
        tokens: Vec<Token>,
    ) -> Result<Result<Trees, TreeError>, AllocError>
        ensures { IfOk result (λ read. IfOk read (λ trees. tokens_of trees ≡ tokens.items)) }
    {
        let mut partners = Vec::with_capacity(alloc, tokens.len())?;
        let mut open: Vec<u32> = Vec::new(alloc);
        for (at, token) in tokens.iter().enumerate() {
            if at >= LIMIT {
                return Ok(Err(error_at(sources, *token, TreeFault::TooLong)));
            }
            add_place(&mut partners, at)?;
            if closer(token.kind).is_some() {
                open.push(at as u32)?;
            } else if closes(token.kind) {
                match closed_by(tokens.as_slice(), partners.as_slice(), open.pop(), at) {
                    Ok(opener) => pair_in(&mut partners, opener, at),
                    Err(fault) => return Ok(Err(error_at(sources, *token, fault))),
                }
            }
        }
        match open.pop().and_then(|opener| tokens.get(opener as usize)) {
            Some(opener) => Ok(Err(error_at(sources, *opener, TreeFault::Unclosed))),
            None => Ok(Ok(Trees { tokens, partners })),
        }
    }

    /// How many tokens there are.
    pub fn len(&self) -> usize
        ensures { result ≡ length (tokens_of self.now) }
    {
        self.tokens.len()
    }

    /// Whether there are none.
    pub fn is_empty(&self) -> bool {
        self.tokens.is_empty()
    }

    /// The tokens in their order.
    pub fn tokens(&self) -> &[Token]
        ensures { result.now ≡ tokens_of self.now }
    {
        self.tokens.as_slice()
    }

    /// For each delimiter the place of its partner, for another token its own.
    pub fn partners(&self) -> &[u32]
        ensures value { result.now ≡ partners_of self.now }
        ensures as_many { length result.now ≡ length (tokens_of self.now) }
        ensures matched { ArePartners result.now }
    {
        self.partners.as_slice()
    }

    /// The token at a place.
    pub fn get(&self, at: usize) -> Option<Token> {
        self.tokens.get(at).copied()
    }

    /// The place of a delimiter's partner, or the place itself.
    pub fn partner(&self, at: usize) -> usize
        ensures { at < length (tokens_of self.now) → result ≡ slice_index (partners_of self.now) at }
    {
        match self.partners.get(at) {
            Some(partner) => *partner as usize,
            None => at,
        }
    }

    /// The place behind the tree that begins at a place.
    pub fn after(&self, at: usize) -> usize
        ensures { at < 2 ^ 64 - 1 → at < result }
    {
        self.partner(at).max(at).saturating_add(1)
    }
}
