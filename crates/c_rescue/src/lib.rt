// What the rescue of a figure answers as one number, for C.
#![tactic(auto)]

ghost use Rattle.std.specs.Prelude.{◌≡◌};
ghost use Rattle.c_rescue.specs.Codes.{cuts_or};

use c_codes::refusal_code;
use shared_words::Refusal;
use studio_rescue_rules::Mended;

// The count of cuts, or a refusal.
pub fn mended_code(mended: Result<Mended, Refusal>) -> u64
    ensures { result ≡ cuts_or mended }
{
    mended.map_or_else(refusal_code, |done| done.cuts as u64)
}
