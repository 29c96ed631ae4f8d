// Document 01's checks 1 and 2, of the bytes of a text.
ghost use Rattle.std.specs.Prelude.{◌≡◌};
ghost use Rattle.refusals.specs.Refusals.{number_or_zero};
ghost use Rattle.synop_checks.specs.Bytes as bytes;

use refusals::Refusal;
use texts::bytes::find;

// By `&` and `|`, not by a match: without branches the loop over the bytes takes several at a time.
#[tactic(auto, unfolding(crate::specs::Bytes::is_known))]
fn is_known(b: u8) -> bool
    ensures { result ≡ bytes.is_known b }
{
    let digit = (b'0' <= b) & (b <= b'9');
    let letter = (b'A' <= b) & (b <= b'Z');
    let blank = (b == b' ') | (b == b'\r') | (b == b'\n');
    digit | letter | blank | (b == b'/') | (b == b'=')
}

// Whether the text ends with its first `=`.
#[tactic(auto, using(crate::proofs::Reading::ended_some, crate::proofs::Reading::ended_none))]
fn is_ended(s: &[u8]) -> bool
    ensures { result ≡ bytes.ended s.now }
{
    match find(s, b'=') {
        Some(end) => end + 1 == s.len(),
        None => false,
    }
}

// Whether all its bytes are known. The loop looks at all of them: without a way out of it, it takes several bytes at a time.
#[tactic(auto, using(crate::proofs::Reading::knowing_none, crate::proofs::Reading::knowing_more, crate::proofs::Reading::known_all))]
fn are_known(s: &[u8]) -> bool
    ensures { result ≡ bytes.check2 s.now }
{
    let mut known = true;
    for &b in s {
        known &= is_known(b);
    }
    known
}

// Which of checks 1 and 2 fails first, if one does.
#[tactic(auto, unfolding(crate::specs::Bytes::of_bytes, crate::specs::Bytes::check1))]
pub fn of_bytes(s: &[u8]) -> Result<(), Refusal>
    ensures { number_or_zero result ≡ bytes.of_bytes s.now }
{
    if 512 < s.len() || !is_ended(s) {
        return Err(Refusal::Unended);
    }
    if !are_known(s) {
        return Err(Refusal::UnknownByte);
    }
    Ok(())
}
