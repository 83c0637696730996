//! Where expressions end.

use crate::cursor::{Cursor, is_literal};
use crate::words::Word;
use rust_lexer::TokenKind;

/// What an expression goes on with.
#[derive(Clone, Copy, PartialEq, Eq)]
enum Wants {
    Operand,
    /// An operand, or none, as behind `return`.
    OperandOrNone,
    /// An operator, or what is called, indexed or asked for, or none.
    Operator,
}

impl<'a> Cursor<'a> {
    /// Goes over the parameters of a closure, and the type that it answers.
    fn closure_head(&mut self) -> Option<Wants> {
        if !self.eat_pair(b'|', b'|') {
            self.skip(1);
            let mut is_closed = false;
            for _ in self.at..self.end {
                if self.eat(b'|') {
                    is_closed = true;
                    break;
                }
                self.step();
            }
            if !is_closed {
                return None;
            }
        }
        if self.eat_pair(b'-', b'>') {
            self.ty(false)?;
        }
        Some(Wants::Operand)
    }

    /// Goes over a dot with the name behind it, or over the dots of a range.
    fn dots(&mut self) -> Option<Wants> {
        let length = self.operator_length();
        self.skip(length);
        match length {
            1 => {
                let is_number = matches!(self.kind(0), Some(TokenKind::Integer | TokenKind::Float));
                if !is_number && !self.is_any_name() {
                    return None;
                }
                self.skip(1);
                Some(Wants::Operator)
            }
            2 => Some(Wants::OperandOrNone),
            _ => Some(Wants::Operand),
        }
    }

    /// Goes over the pattern of a loop, or over the lifetimes of a closure.
    fn for_head(&mut self) -> Option<Wants> {
        if self.is_mark(0, b'<') {
            self.angles()?;
            return Some(Wants::Operand);
        }
        self.pattern(true)?;
        if self.eat_word(Word::In) {
            Some(Wants::Operand)
        } else {
            None
        }
    }

    /// Goes over the pattern of a condition that binds.
    fn let_head(&mut self) -> Option<Wants> {
        self.pattern(true)?;
        if self.is_mark(0, b'=') && self.operator_length() == 1 {
            self.skip(1);
            Some(Wants::Operand)
        } else {
            None
        }
    }

    /// Goes over the word that an operand begins with.
    fn operand_word(&mut self) -> Option<Wants> {
        let word = self.word(0);
        self.skip(1);
        match word {
            Word::Return | Word::Yield | Word::Become | Word::Do => Some(Wants::OperandOrNone),
            Word::Break => {
                self.eat_lifetime();
                Some(Wants::OperandOrNone)
            }
            Word::Continue => {
                self.eat_lifetime();
                Some(Wants::Operator)
            }
            Word::If
            | Word::While
            | Word::Match
            | Word::Loop
            | Word::Unsafe
            | Word::Move
            | Word::Static
            | Word::Const
            | Word::Box => Some(Wants::Operand),
            Word::Async | Word::Try | Word::Gen => {
                let is_block = self.kind(0) == Some(TokenKind::OpenBrace);
                if is_block || self.is_mark(0, b'|') || self.word(0) == Word::Move {
                    return Some(Wants::Operand);
                }
                Some(Wants::Operator)
            }
            Word::For => self.for_head(),
            Word::Let => self.let_head(),
            Word::True | Word::False | Word::Underscore => Some(Wants::Operator),
            _ if word.is_segment() => Some(Wants::Operator),
            _ => None,
        }
    }

    /// Goes over the mark that an operand begins with.
    fn operand_mark(&mut self, mark: u8) -> Option<Wants> {
        match mark {
            b'|' => self.closure_head(),
            b'<' => {
                self.angles()?;
                Some(Wants::Operator)
            }
            b'-' | b'!' | b'*' => {
                self.skip(1);
                Some(Wants::Operand)
            }
            b'&' => {
                self.skip(1);
                if self.word(0) == Word::Raw && matches!(self.word(1), Word::Const | Word::Mut) {
                    self.skip(2);
                } else {
                    self.eat_word(Word::Mut);
                }
                Some(Wants::Operand)
            }
            b'.' if self.operator_length() > 1 => self.dots(),
            b':' if self.is_path_mark(0) => {
                self.skip(2);
                self.segment()?;
                Some(Wants::Operator)
            }
            b'#' => {
                self.skip(1);
                self.group(TokenKind::OpenBracket)?;
                Some(Wants::Operand)
            }
            _ => None,
        }
    }

    /// Goes over an operand, or over what it begins with.
    fn operand(&mut self) -> Option<Wants> {
        match self.kind(0)? {
            TokenKind::Mark(mark) => self.operand_mark(mark),
            TokenKind::Lifetime => {
                self.skip(1);
                if self.is_path_mark(0) || !self.eat(b':') {
                    return None;
                }
                Some(Wants::Operand)
            }
            TokenKind::OpenParen | TokenKind::OpenBracket | TokenKind::OpenBrace => {
                self.step();
                Some(Wants::Operator)
            }
            kind if is_literal(kind) => {
                self.skip(1);
                Some(Wants::Operator)
            }
            _ => self.operand_word(),
        }
    }

    /// Whether what stands here goes on with an expression that is whole so far.
    fn goes_on(&self) -> bool {
        match self.kind(0) {
            Some(TokenKind::OpenParen | TokenKind::OpenBracket | TokenKind::OpenBrace) => true,
            Some(TokenKind::Mark(mark)) => match mark {
                b':' => self.is_path_mark(0),
                b'!' => self.opens(1) || self.is_pair(0, b'!', b'='),
                b'=' => !self.is_pair(0, b'=', b'>'),
                b'-' => !self.is_pair(0, b'-', b'>'),
                b'.' | b'?' | b'+' | b'*' | b'/' | b'%' | b'^' | b'&' | b'|' | b'<' | b'>' => true,
                _ => false,
            },
            Some(_) => matches!(self.word(0), Word::As | Word::Else),
            None => false,
        }
    }

    /// Goes over what goes on with an expression.
    fn operator(&mut self) -> Option<Wants> {
        match self.kind(0)? {
            TokenKind::Mark(b'.') => return self.dots(),
            TokenKind::Mark(b'?') => self.skip(1),
            TokenKind::Mark(b':') => {
                self.skip(2);
                if self.is_mark(0, b'<') {
                    self.angles()?;
                } else {
                    self.segment()?;
                }
            }
            TokenKind::Mark(b'!') if self.opens(1) => self.skip(1),
            TokenKind::Mark(_) => {
                self.skip(self.operator_length());
                return Some(Wants::Operand);
            }
            TokenKind::Identifier => {
                if !self.eat_word(Word::As) {
                    self.skip(1);
                    return Some(Wants::Operand);
                }
                self.ty(false)?;
            }
            _ => self.step(),
        }
        Some(Wants::Operator)
    }

    /// Goes over an expression. What stands behind a block goes on with it, be it a statement.
    pub(crate) fn expression(&mut self) -> Option<()> {
        let mut wants = Wants::Operand;
        // Each turn goes on by a token at least, or is the last.
        for _ in self.at..=self.end {
            let wants_operand = match wants {
                Wants::Operand => true,
                Wants::OperandOrNone => self.begins_operand(),
                Wants::Operator => false,
            };
            if wants_operand {
                wants = self.operand()?;
            } else if self.goes_on() {
                wants = self.operator()?;
            } else {
                return Some(());
            }
        }
        None
    }
}
