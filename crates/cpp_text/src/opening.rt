//! The tokens of one file.

ghost use Rattle.std.specs.Prelude.{◌<◌, length, IfOk, IfErr};
ghost use Rattle.cpp_expand.specs.Causes.{Refuses};
ghost use Rattle.cpp_text.specs.Causes.{OfText};

use fsc_base::Refused;
use pp_token::{PpTokens, pp_tokens};
use std::alloc::Global;

/// The preprocessing tokens of a file's bytes, of which the last is its End.
#[tactic(auto, using(crate::proofs::FileTokens::has_end, crate::proofs::FileTokens::refuses))]
pub fn file_tokens(alloc: Global, unit: u32, file: u32, bytes: &[u8]) -> Result<PpTokens, Refused>
    ensures has_end { IfOk result (λ tokens. 0 < length tokens) }
    ensures cause { IfErr result (Refuses OfText) }
{
    pp_tokens(alloc, unit, file, bytes)
}
