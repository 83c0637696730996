//! Workspaces, and below each what is wanted of it.

use crate::readers::Asked;

pub static TEXTS: [(Asked, &str); 11] = [
    (
        Asked::Names(1),
        r#"a module sees what is textual, its scope, crates, their macros and the prelude
crate 1 root 0
crate 0 root 1
dep std crate 1 prelude
dep u8 crate 1 prelude
path a.rs file 2
type u8 0
-- file
pub mod prelude {
pub mod rust_2021 { pub struct P; pub struct Q; pub struct u8; pub mod std {} }
} #[macro_export] macro_rules! used {}
-- file
#[macro_use] extern crate std; macro_rules! made {} pub struct S; mod a;
-- file
pub(crate) struct T(u8); use crate::S as P;
-- shows
TextualMacro made Macros pub crate::?
Scope T Types pub(crate) crate::a::T
Scope T Values pub(in crate::a) crate::a::T
Scope P Types pub(in crate::a) crate::S
Scope P Values pub(in crate::a) crate::S
ExternPrelude std Types pub crate#1[0]
MacroUsePrelude used Macros pub macro_rules#0
Prelude Q Types pub struct#1
Prelude Q Values pub struct#1
Prelude u8 Values pub struct#2"#,
    ),
    (
        Asked::Names(0),
        r#"the root of a block sees its own
crate 1 root 0
crate 0 root 1
dep d crate 1 prelude
-- file
#[macro_export] macro_rules! used {}
-- file
#[macro_use] extern crate d; pub struct S;
-- block depth 0 in 0
struct B {} macro_rules! own {}
-- shows
TextualMacro own Macros pub {block}::?
Scope B Types pub(in {block}) {block}::B"#,
    ),
    (
        Asked::Scope,
        r#"names are bound where their kinds stand
type u8 0
-- file
pub mod a { pub fn f() {} } pub(crate) struct S; union U {} pub enum E { V() } const C: u8 = 0;
static Z: u8 = 0; trait T {} type A = u8; pub macro m {} #[macro_export] macro_rules! x {}
extern { fn g(); } use E::V; use u8 as B; use self::g as h;
-- shows
types: a=crate::a S=crate::S U=crate::U E=crate::E T=crate::T A=crate::A V=variant#0 B=builtin#0
values: S=crate::S C=crate::C Z=crate::Z g=crate::g V=variant#0 h=crate::g
macros: m=crate::m x=crate::x
a Types pub crate::a 0
S Types pub(crate) crate::S 2
S Values pub(crate) crate::S 2
U Types pub(in crate) crate::U 3
E Types pub crate::E 4
C Values pub(in crate) crate::C 5
Z Values pub(in crate) crate::Z 6
T Types pub(in crate) crate::T 7
A Types pub(in crate) crate::A 8
m Macros pub crate::m 9
x Macros pub crate::x 10
g Values pub(in crate) crate::g 12
V Types pub(in crate) variant#0 -
V Values pub(in crate) variant#0 -
B Types pub(in crate) builtin#0 -
h Values pub(in crate) crate::g 12
last: g Values h Values"#,
    ),
    (
        Asked::Scope,
        r#"a function may be a procedural macro
crate 0 root 0 proc-macro
-- file
#[proc_macro] pub fn f() {}
-- shows
types:
values:
macros: f=crate::f
f Macros pub crate::f 0
last: f Macros"#,
    ),
    (
        Asked::Reports,
        r#"what is reported
crate 1 root 0 proc-macro
built off 0 disabled
crate 0 root 1
dep d crate 1 prelude
attribute derive derive
-- file
#[proc_macro_attribute] pub fn gone() {} #[proc_macro_attribute] pub fn off() {}
-- file
#[cfg(7)] struct A; mod b; extern crate c; #[rustc_builtin_macro] pub macro none {}
#[rustc_builtin_macro] pub macro derive {} #[d::gone] struct G; #[d::off] struct O;
#[nope] struct N; #[derive(D)] struct S; #[derive(D)] fn f() {} #[derive] struct M;
crate::m!(); mod k { mod l { use super::X; } }
-- shows
crate: an extern crate is not found
crate: what is written here is not compiled
crate: no file of a module is found: b.rs, b/mod.rs
crate: no builtin implements a macro that is marked as one
crate: the macro of d::gone is not built
crate: the macro of d::off is switched off
crate: a derive stands on no struct, union or enum
crate: a derive has no list of paths
crate: the attribute nope is not found
crate: the derive D is not found
crate: the macro crate::m is not found
crate::k::l: import 0 of a use is not found
left: super::X
left: D
left: crate::m"#,
    ),
    (
        Asked::Reports,
        r#"what is reported where no attribute is expanded
crate 1 root 0 proc-macro
built at 0
crate 0 root 1
dep d crate 1 prelude
no-attr-macros
-- file
#[proc_macro_attribute] pub fn at() {}
-- file
#[d::at] struct G;
-- shows
crate: the macro of d::at is not expanded, as no attribute is"#,
    ),
    (
        Asked::Reports,
        r#"paths are left over as they are written
-- file
mod a { use b::c; use self::d; use super::super::e; use crate::f::g; use ::h::i; } $1::j!();
-- shows
crate: the macro $crate::j is not found
crate::a: import 0 of a use is not found
crate::a: import 0 of a use is not found
crate::a: import 0 of a use is not found
crate::a: import 0 of a use is not found
crate::a: import 0 of a use is not found
left: b::c
left: self::d
left: super::super::e
left: crate::f::g
left: ::h::i
left: $crate::j"#,
    ),
    (
        Asked::Paths,
        r#"an attribute is a macro's, known, another one or none
macro 0:1 by attr
-- file
#[at] struct T; pub macro at {} pub macro other {} mod a { pub struct S; pub macro other {} }
-- call at 0:0 of macro:0 by attr
pub struct R;
-- shows
at: call 0
other: no macro other
a::other: other
inert: missing, known, other
rustfmt::skip: missing, known, other
a: crate::a, pub(in crate::a), no macro a
a::S::c: from 2 on: crate::a::S, no macro a::S::c
a::T: no macro a::T
b::T: missing, no macro b::T"#,
    ),
    (
        Asked::Macros(1),
        r#"a path names the first macro that fits
crate 1 root 0
crate 0 root 1 edition 2015
dep std crate 1 prelude
macro 1:5 by attr
-- file
pub mod prelude { pub mod rust_2015 { pub macro p {} } } #[macro_export] macro_rules! used {}
-- file
#[macro_use] extern crate std; macro_rules! t {} pub macro m {}
mod a { pub macro n {} pub macro at {} }
-- shows
t: call crate::?,
m: import crate::m,
n: call crate::a::n,
at: attribute crate::a::at,
used: call macro_rules#0,
p: call macro#0,
a::n: import crate::a::n,
gone:"#,
    ),
    (
        Asked::Macros(0),
        r#"and in a block one of the maps around it
crate 1 root 0
crate 0 root 1
dep std crate 1 prelude
-- file
pub mod prelude { pub mod rust_2021 { pub macro p {} } }
-- file
macro_rules! t {} pub mod a { pub macro n {} pub macro m {} }
-- block depth 0 in 1 0
pub macro n {}
-- shows
t: call macro_rules#0, import macro_rules#0,
m: call macro#2, import macro#2,
n: call {block}::n, import {block}::n,
at:
used:
p: call macro#0, import macro#0,
a::n:
gone:"#,
    ),
    (
        Asked::Map,
        r#"what else is known of a map
path a.rs file 1
-- file
#![feature(f)] mod a; use a::*; macro_rules! m {} use b::T;
impl S {} impl Tr for S {} extern {} const _: u8 = 0;
-- file
pub struct S;
-- shows
true true true true
true"#,
    ),
];
