//! The rules of definition collection: what a run is, what it answers and what it reports. What
//! follows of each run, and the code that is proved to take such runs, lie above.
#![tactic(auto)]

mod deferred;
mod diagnostics;
mod inner_calls;
mod outcome;

pub use deferred::DeferredDerive;
pub use diagnostics::{DefDiagnostic, DefDiagnosticKind, DefDiagnostics, ExpandErrorKind};
pub use inner_calls::InnerCall;
pub use outcome::{Edge, LeftImport, LeftMacro, LeftMacroKind, Outcome};
