//! The texts of the scripted workspaces that have names, each a row that wants no lines.

pub static ATTRS: &str = r#"
-- file
#![recursion_limit = "4"] #![no_core] #![no_std] #![feature(register_tool)]
-- shows"#;

pub static CHAIN: &str = "
-- file
pub macro late {} mod m0{crate::late!();} mod m1{pub use crate::m0::*;}
mod m2{pub use crate::m1::*;} mod m3{pub use crate::m2::*;} mod m4{pub use crate::m3::*;}
mod m5{pub use crate::m4::*;} mod m6{pub use crate::m5::*;} mod m7{pub use crate::m6::*;}
mod m8{pub use crate::m7::*;} mod m9{pub use crate::m8::*;} mod m10{pub use crate::m9::*;}
mod m11{pub use crate::m10::*;} mod m12{pub use crate::m11::*;}
mod m13{pub use crate::m12::*;} mod m14{pub use crate::m13::*;}
mod m15{pub use crate::m14::*;} mod m16{pub use crate::m15::*;}
mod m17{pub use crate::m16::*;} mod m18{pub use crate::m17::*;}
mod m19{pub use crate::m18::*;} mod m20{pub use crate::m19::*;}
mod m21{pub use crate::m20::*;} mod m22{pub use crate::m21::*;}
mod m23{pub use crate::m22::*;} mod m24{pub use crate::m23::*;}
mod m25{pub use crate::m24::*;} mod m26{pub use crate::m25::*;}
mod m27{pub use crate::m26::*;} mod m28{pub use crate::m27::*;}
mod m29{pub use crate::m28::*;} mod m30{pub use crate::m29::*;}
mod m31{pub use crate::m30::*;} mod m32{pub use crate::m31::*;}
mod m33{pub use crate::m32::*;} mod m34{pub use crate::m33::*;}
mod m35{pub use crate::m34::*;} mod m36{pub use crate::m35::*;}
mod m37{pub use crate::m36::*;} mod m38{pub use crate::m37::*;}
mod m39{pub use crate::m38::*;} mod m40{pub use crate::m39::*;}
mod m41{pub use crate::m40::*;} mod m42{pub use crate::m41::*;}
mod m43{pub use crate::m42::*;} mod m44{pub use crate::m43::*;}
mod m45{pub use crate::m44::*;} mod m46{pub use crate::m45::*;}
mod m47{pub use crate::m46::*;} mod m48{pub use crate::m47::*;}
mod m49{pub use crate::m48::*;} mod m50{pub use crate::m49::*;}
mod m51{pub use crate::m50::*;} mod m52{pub use crate::m51::*;}
mod m53{pub use crate::m52::*;} mod m54{pub use crate::m53::*;}
mod m55{pub use crate::m54::*;} mod m56{pub use crate::m55::*;}
mod m57{pub use crate::m56::*;} mod m58{pub use crate::m57::*;}
mod m59{pub use crate::m58::*;} mod m60{pub use crate::m59::*;}
mod m61{pub use crate::m60::*;} mod m62{pub use crate::m61::*;}
mod m63{pub use crate::m62::*;} mod m64{pub use crate::m63::*;}
mod m65{pub use crate::m64::*;} mod m66{pub use crate::m65::*;}
mod m67{pub use crate::m66::*;} mod m68{pub use crate::m67::*;}
mod m69{pub use crate::m68::*;} mod m70{pub use crate::m69::*;}
mod m71{pub use crate::m70::*;} mod m72{pub use crate::m71::*;}
mod m73{pub use crate::m72::*;} mod m74{pub use crate::m73::*;}
mod m75{pub use crate::m74::*;} mod m76{pub use crate::m75::*;}
mod m77{pub use crate::m76::*;} mod m78{pub use crate::m77::*;}
mod m79{pub use crate::m78::*;} mod m80{pub use crate::m79::*;}
mod m81{pub use crate::m80::*;} mod m82{pub use crate::m81::*;}
mod m83{pub use crate::m82::*;} mod m84{pub use crate::m83::*;}
mod m85{pub use crate::m84::*;} mod m86{pub use crate::m85::*;}
mod m87{pub use crate::m86::*;} mod m88{pub use crate::m87::*;}
mod m89{pub use crate::m88::*;} mod m90{pub use crate::m89::*;}
mod m91{pub use crate::m90::*;} mod m92{pub use crate::m91::*;}
mod m93{pub use crate::m92::*;} mod m94{pub use crate::m93::*;}
mod m95{pub use crate::m94::*;} mod m96{pub use crate::m95::*;}
mod m97{pub use crate::m96::*;} mod m98{pub use crate::m97::*;}
mod m99{pub use crate::m98::*;} mod m100{pub use crate::m99::*;}
mod m101{pub use crate::m100::*;} mod m102{pub use crate::m101::*;}
mod m103{pub use crate::m102::*;} mod m104{pub use crate::m103::*;}
mod m105{pub use crate::m104::*;} mod m106{pub use crate::m105::*;}
mod m107{pub use crate::m106::*;} mod m108{pub use crate::m107::*;}
mod m109{pub use crate::m108::*;} mod m110{pub use crate::m109::*;}
mod m111{pub use crate::m110::*;} mod m112{pub use crate::m111::*;}
mod m113{pub use crate::m112::*;} mod m114{pub use crate::m113::*;}
mod m115{pub use crate::m114::*;} mod m116{pub use crate::m115::*;}
mod m117{pub use crate::m116::*;} mod m118{pub use crate::m117::*;}
mod m119{pub use crate::m118::*;} mod m120{pub use crate::m119::*;}
mod m121{pub use crate::m120::*;} mod m122{pub use crate::m121::*;}
mod m123{pub use crate::m122::*;} mod m124{pub use crate::m123::*;}
mod m125{pub use crate::m124::*;} mod m126{pub use crate::m125::*;}
mod m127{pub use crate::m126::*;} mod m128{pub use crate::m127::*;}
mod m129{pub use crate::m128::*;} mod m130{pub use crate::m129::*;}
mod m131{pub use crate::m130::*;} mod m132{pub use crate::m131::*;}
mod m133{pub use crate::m132::*;} mod m134{pub use crate::m133::*;}
mod m135{pub use crate::m134::*;} mod m136{pub use crate::m135::*;}
mod m137{pub use crate::m136::*;} mod m138{pub use crate::m137::*;}
mod m139{pub use crate::m138::*;} mod m140{pub use crate::m139::*;}
mod m141{pub use crate::m140::*;} mod m142{pub use crate::m141::*;}
mod m143{pub use crate::m142::*;} mod m144{pub use crate::m143::*;}
mod m145{pub use crate::m144::*;} mod m146{pub use crate::m145::*;}
mod m147{pub use crate::m146::*;} mod m148{pub use crate::m147::*;}
mod m149{pub use crate::m148::*;} mod m150{pub use crate::m149::*;}
-- call at 0:2 of macro:0
pub struct N;
-- shows";

pub static CIRCULAR: &str = r#"
path foo.rs file 1
-- file
#[path = "foo.rs"] mod foo;
-- file
#[path = "foo.rs"] mod foo;
-- shows"#;

pub static CYCLE: &str = "
-- file
mod a { pub use crate::b::*; pub struct X; }
mod b { pub use crate::a::*; pub struct Y; }
-- shows";

pub static EMPTY: &str = "
-- shows";

pub static EXCUSED: &str = "
-- file
extern crate gone as g; use g::X; use ::g::Y; use self::g::Z;
-- shows";

pub static FALLBACK: &str = "
-- file
#[nope] #[nix] pub struct S;
-- shows";

pub static FIELDS: &str = "
-- file
pub struct Q(pub u8, pub(crate) u8);
-- shows";

pub static FOLLOW: &str = "
-- file
mod t { pub struct N; pub macro late {} }
mod s { pub use crate::t::*; crate::t::late!(); } use s::*;
-- call at 0:5 of macro:0
pub struct N;
-- shows";

pub static GLOB: &str = "
-- file
mod a { pub struct S; } use a::*;
-- shows";

pub static LIST: &str = "
-- file
mod p { pub use crate::m::*; }
mod t { pub struct A; pub struct B; }
mod m { pub struct A; pub use crate::t::*; }
-- shows";

pub static MODULE_MACRO: &str = "
-- file
mod m { macro_rules! foo {} } use m::foo as bar;
-- shows";

pub static PARTIAL: &str = "
-- file
pub macro one {} pub macro two {}
mod s { pub trait Q {} crate::one!(); } use s::Q;
-- call at 0:4 of macro:0
pub fn Q() {} crate::two!();
-- call at m0:1 of macro:1
pub macro Q {}
-- shows";

pub static PLAIN: &str = "
-- file
mod a { pub struct S; } use a::S; use a::T;
-- shows";

pub static PRIVATE: &str = "
-- file
mod a { pub struct T(u8); } use a::*;
-- shows";

pub static PROCMACRO: &str = "
crate 0 root 0 proc-macro
-- file
mod g { pub use crate::*; } pub macro late {} crate::late!();
-- call at 0:3 of macro:0
#[proc_macro] pub fn f() {}
-- shows";

pub static ROUNDS: &str = r#"
-- file
#![recursion_limit = "4294967295"] pub macro more {} crate::more!();
-- chain length 10000 item 0 of macro:0
crate::more!();
-- last
crate::more!();
-- shows"#;

pub static TARGETS: &str = "
-- file
mod t { pub mod q { pub struct A; } } pub macro late {}
mod s { pub use crate::t::*; crate::late!(); } use s::q::*;
-- call at 0:6 of macro:0
pub mod q { pub struct B; } pub fn q() {}
-- shows";

pub static TEXTUAL_USE: &str = "
-- file
macro_rules! foo {} use foo as bar;
-- shows";

pub static UNDERSCORE: &str = "
-- file
pub trait Tr {} mod a {} mod b {}
pub(in crate::a) use Tr as _;
pub(in crate::b) use Tr as _;
-- shows";
