//! Files of cases that a person writes by hand, read into names, words and bytes. `docs/CASES.md` explains their form.
#![tactic(auto)]

mod case;
mod escape;
mod line;
mod reading;
mod refusal;

pub use case::{Case, Field};
pub use reading::read_cases;
pub use refusal::CaseNo;
