// Document 01's worked cases. The cases are theorems: proofs/ has a file for each layer.
#![tactic(auto)]

ghost use Rattle.std.specs.Prelude.{◌≡◌};

// How many cases the table has, P1 to P8.
pub fn cases() -> u64
    ensures { result ≡ 8 }
{
    8
}
