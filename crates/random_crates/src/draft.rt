//! A row in the making.

use crate::dice::Dice;
use crate::grammar::Grammar;
use item_tree::{FileId, HirFileId, MacroCallId};
use std::alloc::{AllocError, Global};

/// How many steps a text takes at most.
const MOST_STEPS: usize = 4096;

/// A text that grows. What adds to it answers nothing: where memory is refused, it remembers that.
#[derive(Drop)]
pub struct Ink {
    pub text: String,
    pub is_refused: bool,
}

impl Ink {
    /// No text yet.
    pub fn new(alloc: Global) -> Ink {
        Ink {
            text: String::new(alloc),
            is_refused: false,
        }
    }

    /// Adds a text.
    pub fn say(&mut self, text: &str) {
        if self.text.push_str(text).is_err() {
            self.is_refused = true;
        }
    }

    /// Adds a number.
    pub fn say_number(&mut self, number: usize) {
        if write!(self.text, "{number}").is_err() {
            self.is_refused = true;
        }
    }

    /// Adds the place of an item, as `0:1` or `m0:1`.
    pub fn say_place(&mut self, file: HirFileId, item: usize) {
        match file {
            HirFileId::File(file) => self.say_number(file.0),
            HirFileId::Macro(MacroCallId(call)) => {
                self.say("m");
                self.say_number(call);
            }
        }
        self.say(":");
        self.say_number(item);
    }
}

/// A call that is to be answered: where it stands, and the words that say how the macro is called.
#[derive(Clone, Copy)]
pub struct Due {
    pub file: HirFileId,
    pub item: usize,
    pub by: &'static str,
}

/// A row in the making, and the file of it that is written.
#[derive(Drop)]
pub struct Draft<'a> {
    alloc: Global,
    pub dice: Dice,
    grammar: &'a Grammar,
    /// The lines at the head of the row that say how macros are called.
    pub styles: Ink,
    pub text: Ink,
    /// The file whose items are written, how many there are so far, and how many braces are open.
    file: HirFileId,
    items: usize,
    open: usize,
    /// The calls that are to be answered.
    pub due: Vec<Due>,
}

impl<'a> Draft<'a> {
    /// Nothing yet.
    pub fn new(alloc: Global, dice: Dice, grammar: &'a Grammar) -> Draft<'a> {
        Draft {
            alloc,
            dice,
            grammar,
            styles: Ink::new(alloc),
            text: Ink::new(alloc),
            file: HirFileId::File(FileId(0)),
            items: 0,
            open: 0,
            due: Vec::new(alloc),
        }
    }

    /// Lets the next item wait for the answer of a call.
    fn wait(&mut self, by: &'static str) {
        let due = Due {
            file: self.file,
            item: self.items,
            by,
        };
        if self.due.push(due).is_err() {
            self.text.is_refused = true;
        }
    }

    /// Says in which ways the next item, a macro, may be called, more often than not.
    fn add_styles(&mut self) {
        let styles = self.dice.one_of(&[
            "",
            " by fn attr derive",
            " by fn attr",
            " by attr derive",
        ]);
        if !styles.is_empty() {
            self.styles.say("macro ");
            self.styles.say_place(self.file, self.items);
            self.styles.say(styles);
            self.styles.say("\n");
        }
    }

    /// Ends an item.
    fn end_item(&mut self) {
        self.text.say("\n");
        self.items = self.items.saturating_add(1);
    }

    /// Closes the innermost braces, if some are open.
    fn close(&mut self) {
        if self.open > 0 {
            self.text.say("}\n");
            self.open -= 1;
        }
    }

    /// Does what a character behind `%` stands for. Answers a text that is to be written next.
    fn step(&mut self, symbol: char) -> &'static str {
        match symbol {
            '.' => self.end_item(),
            '{' => self.open = self.open.saturating_add(1),
            '}' => self.close(),
            '&' => self.add_styles(),
            '!' => self.wait(""),
            '@' => self.wait(" by attr"),
            '0' => self.wait(" by derive:0.0"),
            '1' => self.wait(" by derive:0.1"),
            letter => return self.dice.one_of(self.grammar.texts_of(letter)),
        }
        ""
    }

    /// Writes a text of the grammar.
    fn try_write(&mut self, text: &'static str) -> Result<(), AllocError> {
        let mut left: Vec<&'static str> = Vec::new(self.alloc);
        left.push(text)?;
        for _ in 0..MOST_STEPS {
            let Some(text) = left.pop() else {
                break;
            };
            let (before, behind) = text.split_once('%').unwrap_or((text, ""));
            self.text.say(before);
            if let Some(symbol) = behind.chars().next() {
                left.push(behind.get(1..).unwrap_or(""))?;
                let next = self.step(symbol);
                left.push(next)?;
            }
        }
        Ok(())
    }

    /// Writes a text of the grammar, and remembers where memory was refused.
    pub fn write(&mut self, text: &'static str) {
        if self.try_write(text).is_err() {
            self.text.is_refused = true;
        }
    }

    /// Begins a file, writes its items, and closes what is open.
    pub fn write_file(&mut self, file: HirFileId, items: &'static str) {
        self.file = file;
        self.items = 0;
        self.write(items);
        for _ in 0..self.open {
            self.close();
        }
    }
}
