// What the judge of a stick answers as one number, for C.
#![tactic(auto)]

ghost use Rattle.std.specs.Prelude.{◌≡◌};
ghost use Rattle.c_stick.specs.Codes.{one_or};

use c_codes::refusal_code;
use shared_words::Refusal;

// 1 where nothing is wrong, or the first refusal.
pub fn judged_code(judged: Result<(), Refusal>) -> u64
    ensures { result ≡ one_or judged }
{
    judged.map_or_else(refusal_code, |_| 1)
}
