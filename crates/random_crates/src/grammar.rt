//! The texts of random rows, as a grammar.
//!
//! Each line has a letter and its texts, with `|` between them. In a text `%` and a letter stand
//! for one of the letter's texts. What other characters behind `%` do, `Draft` says: `%.` ends an
//! item, `%{` opens braces, and `%}` closes them if some are open.

use std::alloc::{AllocError, Global};

/// A letter and its texts.
#[derive(Drop)]
struct Rule {
    letter: char,
    texts: Vec<&'static str>,
}

/// The grammar, taken apart.
#[derive(Drop)]
pub struct Grammar {
    rules: Vec<Rule>,
}

impl Grammar {
    /// Takes the lines apart.
    pub fn new(alloc: Global) -> Result<Grammar, AllocError> {
        let mut rules = Vec::new(alloc);
        for line in &LINES {
            let (letter, texts) = line.split_once(':').unwrap_or((line, ""));
            let mut rule = Rule {
                letter: letter.chars().next().unwrap_or(' '),
                texts: Vec::new(alloc),
            };
            for text in texts.split('|') {
                rule.texts.push(text)?;
            }
            rules.push(rule)?;
        }
        Ok(Grammar { rules })
    }

    /// The texts of a letter.
    pub fn texts_of(&self, letter: char) -> &[&'static str] {
        for rule in &self.rules {
            if rule.letter == letter {
                return rule.texts.as_slice();
            }
        }
        &[]
    }
}

static LINES: [&str; 51] = [
    // The head of a row: crates, editions, the files of modules, and what the oracle knows.
    "h:%i%jpath a.rs file 3\npath b/mod.rs file 4\npath a/b.rs file 4\n%k%l%n%o",
    "i:|crate 1 root 2%e%p\nbuilt D 0\nbuilt f 1\nbuilt m 2 disabled\n",
    "j:crate 0 root 1%e%q\n",
    "J:dep d crate 1\n|dep d crate 1 prelude\n",
    "e:||| edition 2015| edition 2018| edition 2024",
    "p:|| proc-macro",
    "q:|||||| proc-macro",
    "k:|type u8 0\n|type u8 0\ntype a 1\n",
    "l:|attribute derive derive\n|attribute derive derive\nattribute bench bench\n",
    "n:|derive D 0 impls 0\n|derive D 0 impls 0\nfast-path\n|derive D 0 impls 0 1\nfast-path\n",
    "o:||builtin m 0\n|builtin n 1 eager\nbuiltin m 0\n",
    // The root of a crate: what it says, macros, three modules with items in them, and further
    // items.
    "r:%g%b%x%x%w%w%w%I%I%I|%g%b%x%x%u%u%w%w%w%w%I%I%y%I%I%I|%g%x%y%w%w%u%I%I%I%I%I%I",
    "g:|||||#![recursion_limit = \"%L\"]\n|#![no_std]\n|#![no_core]\n|#![feature(f)]\n",
    "L:0|1|2",
    "b:#[rustc_builtin_macro] pub macro derive {}%.#[rustc_builtin_macro] pub macro D {}%.",
    "w:%V%W {%{%.%I%I%}|%A%Z%V%W {%{%.%d%I%I%I%}|%V%W {%{%.%d%u%I%I%I%I%I%}",
    "W:mod a|mod b|mod c",
    "d:use crate::{derive, D};%.|use crate::*;%.|",
    // One turn at the items of a file: an item, or braces that are opened or closed.
    "I:%m|%}|%}|%u|%u|%u|%u|%s|%s|%s|%t|%x|%x|%c|%c|%c|%f|%z",
    "m:%A%Z%Vmod %M {%{%.|%A%Z%Vmod %M {%{%.%d",
    "Z:|||||#[macro_use] ",
    "u:%A%Vuse %P%U;%.|%Vuse %P%U;%.|%Vuse %P%U;%.|%Vuse %P*;%.|%H%Vuse %P*;%.",
    "H:||||#[prelude_import] ",
    "U:*|*|*|%N|%N|%N|%X|%N as %N|%R as _|%R as _|{%N, %N as c, *}|{self, %R as _}|{a::*, %N}",
    "s:%D%A%V%S%.|%D%V%S%.|%A%V%S%.|%V%S%.",
    "S:%T|%F",
    "T:struct %N;|struct %N(pub u8, pub(crate) u8);|struct %N {}|union %N {}|type %N = u8;",
    "F:enum %N { A, S(u8), T {} }|fn %N() {}|fn %N() {}|const %N: u8 = 0;|static %N: u8 = 0;",
    "t:%A%Vtrait %R {}%.",
    "x:%&%Kmacro_rules! %X {}%.|%&%K#[macro_export] macro_rules! %X {}%.|%&%K%Vmacro %X {}%.",
    "K:|||||||||#[rustc_builtin_macro] |#[cfg(1)] ",
    "c:%!%Q!();%.|%!%Q!();%.|%A%!%Q!();%.",
    "f:%A%Vextern crate d%O;%.|#[macro_use] %Vextern crate d%O;%.|extern crate %G%O;%.",
    "O:||| as b| as _",
    "G:self|gone",
    "z:const _: u8 = 0;%.|impl S {}%.|impl T for S {}%.|extern {%. fn f;%. type g;%. }\n",
    "y:mod a;%.|pub mod b;%.|%A#[macro_use] mod a;%.|#[path = \"a.rs\"] mod c;%.|mod gone;%.",
    // What stands before an item and in it: attributes, visibilities, paths and names.
    "A:|||||||#[rustfmt::skip] %Y|%@#[%Q] |%@#[%Q] %@#[%Q] ",
    "Y:#[cfg(1)] |#[bench] |#[gone] |#[gone::at] |#[tool::at] |#[h] ",
    "D:#[derive(%0%E)] |#[derive(%0%E, %1%E)] |#[derive(%0%E, %1D)] |#[derive] |#[proc_macro] ",
    "E:D|D|%Q|gone",
    "V:|||pub |pub |pub |pub |pub |pub(crate) |pub(super) |pub(in crate::a) |pub(in crate::b) ",
    "P:%C|%C|%C%M::|%C%M::|%C%M::|%C%M::|%C%M::%M::",
    "C:crate::|crate::|crate::|crate::|crate::|self::|super::|super::super::||::|d::|$0::",
    "Q:%X|%X|%X|crate::%X|%P%X",
    "N:a|b|S|T|f|m|n",
    "M:a|a|b|b|c|c|d",
    "R:R|T",
    "X:m|n|S",
    // What the title of a call says of its answer.
    "a:||||||||| err 1| silent| err 1 silent| include| inner 1:0 90 1:2 91",
    "v:0 in 0|0 in 1 0|1 in 2 0|128 in 0|129 in 2 1 0",
];
