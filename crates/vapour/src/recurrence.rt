// The entries of the table, computed by document 01's recurrence in whole numbers of 64 bits. An index is required below the table's length, as one
// into it is.
ghost use Rattle.std.specs.Prelude.{◌≡◌, ◌*◌, ◌<◌, ◌≤◌};
ghost use Rattle.std.proofs.Math.IntN.{sub_ℕ};
ghost use Rattle.vapour.specs.Vapour.{S, places, q, term, sum_to, entry};

// The unit in which the terms are counted: a term S stands for 1.
const S: u64 = 100000000;

// q of the dew point t = index − 500.
fn quotient(index: u64) -> u64
    requires { index < places }
    ensures { (result ≡ q (sub_ℕ index 500)) × (result ≤ 5 * S) }
{
    let t = index as i64 - 500;
    1767 * t.unsigned_abs() * S / (100 * (t + 2435).unsigned_abs())
}

// Z, the sum of terms 0 to 30, from q. Each is at most 28S. The loop goes over the numbers of the recurrence and over no slice; by a
// fold, its closure would have to ask for the bounds of what it returned before.
fn sum(q: u64) -> u64
    requires { q ≤ 5 * S }
    ensures { (result ≡ sum_to (term q) 30) × (S ≤ result) × (result ≤ 868 * S) }
{
    let mut term = S;
    let mut z = S;
    for k in 0..30 {
        term = term * q / (S * (k + 1));
        z += term;
    }
    z
}

// The entry at an index, that of the dew point index − 500.
pub fn entry_at(index: u64) -> u16
    requires { index < places }
    ensures { result ≡ entry (sub_ℕ index 500) }
{
    let z = sum(quotient(index));
    if index < 500 {
        return ((1224 * S + z) / (2 * z)) as u16;
    }
    ((1224 * z + S) / (2 * S)) as u16
}
