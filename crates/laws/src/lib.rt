// What several crates share: in specs/ and proofs/, the definitions and laws that their contracts and proofs cite; and two functions on
// signed numbers for whoever keeps values in offset binary or prints a size. The engine does neither: its values are signed.
#![tactic(auto)]

ghost use Rattle.std.specs.Prelude.{◌≡◌, ◌<◌, nat_abs};
ghost use Rattle.std.proofs.Math.IntN.{sub_ℕ};

// n − offset: from offset binary to a signed number.
pub fn difference(n: u32, offset: u32) -> i32
    requires n_bound { n < 1048576 }
    requires offset_bound { offset < 1048576 }
    ensures { result ≡ sub_ℕ n offset }
{
    n as i32 - offset as i32
}

// The size of a signed number.
pub fn size(v: i32) -> u64
    ensures { result ≡ nat_abs v }
{
    u64::from(v.unsigned_abs())
}
